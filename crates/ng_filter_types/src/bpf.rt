//! ng_bpf(4): the type of node whose hooks have programs that decide where packets go.
mod arguments;
mod filter;
mod filters;
mod messages;
mod node;

pub use node::{BpfNode, blank_bpf};
