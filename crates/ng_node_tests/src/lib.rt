//! Tests of nodes of each type, of what an item goes through, and of graphs.
#![tactic(auto)]

pub mod graphs;
pub mod items;
pub mod types;
