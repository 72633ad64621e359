//! The numbers of the machine's world, kept as plain counts: what was done, dropped and lost, and what is counted of the
//! pending items, so that no event has to go over them.
mod feeding;
mod laws;
mod tally;

pub use laws::{counts_are_low, counts_are_of_world, counts_refuse};
pub use tally::Tally;
