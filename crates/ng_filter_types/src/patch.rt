//! ng_patch(4): the type of node that changes packets by arithmetic at places.
mod node;
mod operations;

pub use node::{PatchNode, blank_patch};
