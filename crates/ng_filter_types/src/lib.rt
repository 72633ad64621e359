//! The types of nodes that read or change what stands in a packet: etf by the ethertype, ng_etf(4); bpf by a program,
//! ng_bpf(4); patch at a place, ng_patch(4); and macset by a set of addresses, which is this project's own.
#![tactic(auto)]

mod addresses;
pub mod bpf;
mod counters;
mod etf;
mod filters;
mod macset;
mod matchhook;
pub mod patch;

pub use etf::{EtfNode, blank_etf};
pub use macset::{MacsetNode, blank_macset};
