//! A node of the type bridge, as ng_bridge(4) has it: it learns which of its links a host is behind, and sends a frame
//! toward the host that it is for.
mod bridge;
mod host;
mod hosts;
mod link;
mod links;
mod messages;
mod node;
mod standing;

pub use node::{BridgeNode, blank_bridge};
