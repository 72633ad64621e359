//! What becomes of a packet at a node: the part of the node's state that its rule reads, as an immutable plan that packets
//! share, and the rule itself; what plans look up; and the trait `Node`, which each type's code implements.
#![tactic(auto)]

mod bpf;
pub mod bridge_plan;
mod echo;
mod etf;
mod ether;
mod evaluation;
mod form;
mod hole;
mod hub;
pub mod lookup;
mod macset;
pub mod node;
mod operations;
mod patch;
mod plan;
mod socket;
mod split;
mod tee;
mod vlan;

pub use crate::bridge_plan::BridgePlan;
pub use crate::lookup::{
    all_hook, answers, count_packet, count_packets, downstream, fails, in_hook, known_hook, left,
    left2right, link_hook, link_number, lower, many, mixed, nomatch, nothing, one, other_hook,
    out_hook, right, right2left, send_to, upper,
};
pub use evaluation::{eval, eval_into};
pub use ng_machine::{
    BpfWay, BridgeConfig, BridgeHost, BridgeLink, Counts, Door, EtfWay, Exit, Leaves, Outcome,
    PatchOp, Plan as Way, Sends, VlanWay,
};
pub use plan::Plan;
pub use vlan::VlanPlan;
