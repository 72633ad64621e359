// The order to shut down.
ghost use Rattle.std.specs.Prelude.{◌≡◌, IfOk, IfErr, OnErr};
ghost use Rattle.ng_core_state.specs.step.Steps.{StandsOn};
ghost use Rattle.ng_core_apply.specs.removal.Removals.{MayRemove, Removes, shuts_down};
ghost use Rattle.ng_topology.specs.Topology.{IsAtHome};

use crate::removal::bypass::apply_parting;
use crate::removal::going::apply_going;
use crate::removal::staying::apply_staying;
use ng_core_state::State;
use ng_machine::{Farewell, Item};
use ng_plan::node::Node;
use std::alloc::Global;

/// The order to shut down: a node goes or stays without its hooks, or joins two of its peers to each other and goes, as its
/// type says, and the other peers of its hooks at other nodes are to take their ends away: the box of a node that goes, and else
/// nothing.
///
/// # Errors
/// The item itself where memory ran out, and for nothing else; nothing but room changed.
pub fn apply_shutdown<B: Node>(
    alloc: Global,
    state: &mut State<B>,
    item: Item,
) -> Result<Option<B>, Item>
    requires work { MayRemove state.old item (shuts_down item) }
    requires home { IsAtHome state.old.graph item.to }
    ensures applied { IfOk result (Removes B.state state.old state.new item (shuts_down item)) }
    ensures err { OnErr result (StandsOn state.old state.new) }
    ensures back { IfErr result (λ it. it ≡ item) }
{
    match state.graph.node(item.to).farewell() {
        Farewell::Plain => apply_going(alloc, state, item),
        Farewell::Stay => apply_staying(alloc, state, item),
        Farewell::Bypass { a, b } => apply_parting(alloc, state, item, &(a, b)),
    }
}
