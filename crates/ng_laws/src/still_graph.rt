//! A graph that stands still: the packets that leave it depend on the packets that come, and on no other part of a run.
mod laws;

pub use laws::{fuel, one_step, packets_decide, places_are_ports, same_bag, still};
