// A node stays, without its hooks.
ghost use Rattle.std.specs.Prelude.{◌≡◌, IfOk, IfErr, OnErr, Some};
ghost use Rattle.ng_machine.specs.declared.farewell.Farewell.TheVariants.{Stay};
ghost use Rattle.ng_machine.specs.Run.{RunState};
ghost use Rattle.ng_machine.specs.World.{NodeRecord, node_at, without_hooks};
ghost use Rattle.ng_core_state.specs.step.Changed.{with_node};
ghost use Rattle.ng_core_state.specs.step.Steps.{StandsOn};
ghost use Rattle.ng_queue.specs.pending.Holds.{in_world};
ghost use Rattle.ng_core_apply.specs.removal.Removals.{MayRemove, Removes, bids_farewell};
ghost use Rattle.ng_topology.specs.Topology.{IsAtHome, change_node};
ghost use Rattle.ng_core_state.specs.Stands.{Stands};

use crate::removal::peers::{ask_peers, hooks_of, widen_peers};
use ng_base::NodeId;
use ng_core_state::State;
use ng_core_state::step::finish;
use ng_machine::Item;
use ng_plan::node::Node;
use std::alloc::Global;

// All hooks of a node, whose box is at home, are taken away.
fn clear_hooks<B: Node>(state: &mut State<B>, id: NodeId)
    requires home { IsAtHome state.old.graph id }
    ensures stands { (a : RunState) (node : NodeRecord) → Stands state.old a → node_at a.world id ≡ Some node
        → Stands state.new (in_world a (with_node a.world id (without_hooks node))) }
    ensures graph { state.new.graph ≡ change_node state.old.graph id without_hooks }
    ensures pending { state.new.pending ≡ state.old.pending }
{
    state.graph.clear(id);
}

/// A node of a kind that stays at a shutdown loses its hooks, and their peers at other nodes are to take their ends away:
/// nothing comes out.
///
/// # Errors
/// The item itself where memory ran out, and for nothing else; nothing but room changed.
pub fn apply_staying<B: Node>(
    alloc: Global,
    state: &mut State<B>,
    item: Item,
) -> Result<Option<B>, Item>
    requires work { MayRemove state.old item (bids_farewell item Stay) }
    requires home { IsAtHome state.old.graph item.to }
    ensures applied { IfOk result (Removes B.state state.old state.new item (bids_farewell item Stay)) }
    ensures err { OnErr result (StandsOn state.old state.new) }
    ensures back { IfErr result (λ it. it ≡ item) }
{
    state.graph.soundness();
    let Ok(hooks) = hooks_of(alloc, state, item.to) else {
        return Err(item);
    };
    if widen_peers(state, hooks.as_slice()).is_err() {
        return Err(item);
    }
    finish(state, &item);
    clear_hooks(state, item.to);
    ask_peers(state, item.to, item.stamp, hooks);
    Ok(None)
}
