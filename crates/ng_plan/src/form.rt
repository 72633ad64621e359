// What a plan is made of: for each type, lists in which its rule finds what it looks for.
use crate::bpf::BpfPlan;
use crate::bridge_plan::BridgePlan;
use crate::etf::EtfPlan;
use crate::lookup::Hooks;
use crate::macset::MacsetPlan;
use crate::patch::PatchPlan;
use crate::vlan::VlanPlan;
use ng_base::{Kind, Names};

/// A plan, by the type of node.
#[derive(Drop)]
pub enum Form {
    OfHole,
    OfEcho,
    OfHub(Names),
    /// A tee or a split.
    ByHooks { kind: Kind, hooks: Hooks },
    OfVlan(VlanPlan),
    OfPatch(PatchPlan),
    OfBpf(BpfPlan),
    /// An ether, which has the hook `lower` or not.
    OfEther(bool),
    OfSocket,
    OfBridge(BridgePlan),
    OfEtf(EtfPlan),
    OfMacset(MacsetPlan),
}
