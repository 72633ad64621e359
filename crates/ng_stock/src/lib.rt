//! The blank nodes that the program has: how many of which types.
#![tactic(auto)]

mod any_node;
mod blanks;
mod laws;

pub use any_node::{AnyNode, TypedNode};
pub use blanks::stock;
pub use laws::stock_suffices;
