// The blank nodes, one behind another.
ghost use Rattle.std.specs.Prelude.{◌≡◌, ◌++◌, map, replicate, IfOk, OnOk, All};
ghost use Rattle.ng_machine.specs.State.{blank_of, kind_of};
ghost use Rattle.ng_stock.specs.Any.{any_state};
ghost use Rattle.ng_stock.specs.Stocked.{stocked};

use crate::any_node::{AnyNode, TypedNode};
use ng_base::{Kind, NoMemory};
use ng_filter_types::bpf::blank_bpf;
use ng_filter_types::patch::blank_patch;
use ng_filter_types::{blank_etf, blank_macset};
use ng_plain_types::edge::{blank_ether, blank_socket};
use ng_plain_types::simple::{blank_echo, blank_hole, blank_hub, blank_split};
use ng_plain_types::tee::blank_tee;
use ng_switch_types::bridge::blank_bridge;
use ng_switch_types::one2many::blank_one2many;
use ng_switch_types::vlan::blank_vlan;
use std::alloc::Global;

// A run has at most 64 ports.
const ETHERS: u32 = 64;

// So many nodes of each other type can be made.
const EACH: u32 = 256;

// The other types: all but the socket, which is the program, and the ethers, which are its ports.
const INNER_KINDS: [Kind; 12] = [
    Kind::Hub,
    Kind::Hole,
    Kind::Echo,
    Kind::Tee,
    Kind::Split,
    Kind::One2many,
    Kind::Bridge,
    Kind::Vlan,
    Kind::Patch,
    Kind::Bpf,
    Kind::Etf,
    Kind::Macset,
];

// A blank node of the kind.
fn blank(alloc: Global, kind: Kind) -> Result<TypedNode, NoMemory>
    ensures { IfOk result (λ node. any_state node ≡ blank_of kind) }
{
    match kind {
        Kind::Hub => Ok(TypedNode::Hub(blank_hub(alloc)?)),
        Kind::Hole => Ok(TypedNode::Hole(blank_hole(alloc)?)),
        Kind::Echo => Ok(TypedNode::Echo(blank_echo(alloc)?)),
        Kind::Tee => Ok(TypedNode::Tee(blank_tee(alloc)?)),
        Kind::Split => Ok(TypedNode::Split(blank_split(alloc)?)),
        Kind::One2many => Ok(TypedNode::One2many(blank_one2many(alloc)?)),
        Kind::Bridge => Ok(TypedNode::Bridge(blank_bridge(alloc)?)),
        Kind::Vlan => Ok(TypedNode::Vlan(blank_vlan(alloc)?)),
        Kind::Patch => Ok(TypedNode::Patch(blank_patch(alloc)?)),
        Kind::Bpf => Ok(TypedNode::Bpf(blank_bpf(alloc)?)),
        Kind::Ether => Ok(TypedNode::Ether(blank_ether(alloc)?)),
        Kind::Socket => Ok(TypedNode::Socket(blank_socket(alloc)?)),
        Kind::Etf => Ok(TypedNode::Etf(blank_etf(alloc)?)),
        Kind::Macset => Ok(TypedNode::Macset(blank_macset(alloc)?)),
    }
}

// So many more blank nodes of the kind.
fn add(alloc: Global, kind: Kind, count: u32, nodes: &mut Vec<AnyNode>) -> Result<(), NoMemory>
    ensures { OnOk result (map any_state nodes.new.items ≡ map any_state nodes.old.items ++ replicate count (blank_of kind)) }
{
    for _ in 0..count {
        nodes.push(AnyNode::new(alloc, blank(alloc, kind)?)?)?;
    }
    Ok(())
}

/// The blank nodes that the program has: one socket, 64 ethers, and 256 of each other type.
///
/// # Errors
/// `NoMemory` where memory ran out, and for nothing else.
pub fn stock(alloc: Global) -> Result<Vec<AnyNode>, NoMemory>
    ensures blank { IfOk result (λ stock. All (λ node. any_state node ≡ blank_of (kind_of (any_state node))) stock.items) }
    ensures kinds { IfOk result (λ stock. map (λ node. kind_of (any_state node)) stock.items ≡ stocked) }
{
    let mut nodes = Vec::new(alloc);
    add(alloc, Kind::Socket, 1, &mut nodes)?;
    add(alloc, Kind::Ether, ETHERS, &mut nodes)?;
    for kind in INNER_KINDS {
        add(alloc, kind, EACH, &mut nodes)?;
    }
    Ok(nodes)
}
