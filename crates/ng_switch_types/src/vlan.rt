//! ng_vlan(4): the type of node that parts frames by the tags of their VLANs.
mod filters;
mod messages;
mod node;

pub use node::{VlanNode, blank_vlan};
