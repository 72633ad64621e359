//! The types of nodes that keep little: hub, hole, echo and split; tee, with its counts; ether and socket, the graph's edges.
#![tactic(auto)]

pub mod edge;
pub mod simple;
pub mod tee;
