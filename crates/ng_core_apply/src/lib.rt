//! What a seat hands in is applied: a packet by what its plan made of it, a writer by what its node's box made of it, and all
//! else by what it brings: orders, questions, and what takes a hook or a node away.
#![tactic(auto)]

mod inside;
pub mod orders;
mod outcome;
pub mod removal;
mod removing;

pub use outcome::apply;
