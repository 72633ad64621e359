// A node goes.
ghost use Rattle.std.specs.Prelude.{◌≡◌, IfOk, IfErr, OnErr};
ghost use Rattle.ng_core_state.specs.step.Steps.{StandsOn};
ghost use Rattle.ng_core_apply.specs.removal.Removals.{MayRemove, Removes, goes};
ghost use Rattle.ng_topology.specs.Topology.{IsAtHome};

use crate::removal::peers::{ask_peers, hooks_of, widen_peers};
use crate::removal::retiring::remove;
use crate::removal::room::widen_for_drops;
use ng_core_state::State;
use ng_core_state::step::finish;
use ng_machine::Item;
use ng_plan::node::Node;
use std::alloc::Global;

/// A node goes, and the peers of its hooks at other nodes are to take their ends away: its box.
///
/// # Errors
/// The item itself where memory ran out, and for nothing else; nothing but room changed.
pub fn apply_going<B: Node>(
    alloc: Global,
    state: &mut State<B>,
    item: Item,
) -> Result<Option<B>, Item>
    requires work { MayRemove state.old item (goes item) }
    requires home { IsAtHome state.old.graph item.to }
    ensures applied { IfOk result (Removes B.state state.old state.new item (goes item)) }
    ensures err { OnErr result (StandsOn state.old state.new) }
    ensures back { IfErr result (λ it. it ≡ item) }
{
    state.graph.soundness();
    let Ok(hooks) = hooks_of(alloc, state, item.to) else {
        return Err(item);
    };
    if widen_peers(state, hooks.as_slice()).is_err() {
        return Err(item);
    }
    if widen_for_drops(state, item.to).is_err() {
        return Err(item);
    }
    finish(state, &item);
    ask_peers(state, item.to, item.stamp, hooks);
    let node = remove(alloc, state, item.to, item.stamp);
    Ok(Some(node))
}
