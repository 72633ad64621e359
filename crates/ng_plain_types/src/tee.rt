//! ng_tee(4): the type of node that passes packets between two hooks, and copies them to two more.
mod stats;
mod tee;

pub use tee::{TeeNode, blank_tee};
