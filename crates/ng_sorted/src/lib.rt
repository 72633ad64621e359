//! Lists in order of numbers: an entry is found by binary search, or the place for it. What an edit at that place keeps
//! are lemmas of `proofs/InOrder.antt`, for the types of nodes that keep such lists.
#![tactic(auto)]

mod key;

pub use key::{Key, place};
