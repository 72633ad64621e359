//! The types of nodes that choose a link for a frame: a bridge by addresses, vlan by tags, one2many by turns.
#![tactic(auto)]

pub mod bridge;
pub mod one2many;
pub mod vlan;
