// A node goes with what waits for it, and then comes what follows of that.
ghost use Rattle.std.specs.Prelude.{◌≡◌, ℕ, length, flat_map, slice_set, None, Some};
ghost use Rattle.ng_machine.specs.Change.{change_all, items_of, retire};
ghost use Rattle.ng_machine.specs.Retire.{aftermath};
ghost use Rattle.ng_machine.specs.Run.{RunState};
ghost use Rattle.ng_machine.specs.World.{NodeRecord, node_in, state_of};
ghost use Rattle.ng_queue.specs.pending.Holds.{NoneOut, in_world};
ghost use Rattle.ng_core_apply.specs.removal.Drops.{MayGo};
ghost use Rattle.ng_queue.specs.tally.Tally.{HasNumbers};
ghost use Rattle.ng_topology.specs.Topology.{IsAtHome, retire_node};
ghost use Rattle.ng_core_state.specs.Stands.{Stands};

use crate::removal::drops::follow_all;
use ng_base::{NodeId, Stamp};
use ng_core_state::State;
use ng_machine::Item;
use ng_plan::node::Node;
use std::alloc::Global;

// A node goes: its box, and the items that waited for it, in order.
fn retire<B: Node>(state: &mut State<B>, at: NodeId) -> (B, Vec<Item>)
    requires home { IsAtHome state.old.graph at }
    requires work { (a : RunState) × Stands state.old a × NoneOut a at.0 }
    requires numbers { HasNumbers 0 state.old.pending.tally }
    ensures node { (node : NodeRecord) → node_in state.old.graph.nodes at ≡ Some node → B.state result.0 ≡ state_of node }
    ensures items { (a : RunState) → Stands state.old a → NoneOut a at.0 → result.1.items ≡ items_of a.world at }
    ensures stands { (a : RunState) → Stands state.old a → NoneOut a at.0 → Stands state.new (in_world a (retire a.world at)) }
    ensures spares { state.new.pending.queues.spares ≡ slice_set state.old.pending.queues.spares at.0 0 }
    ensures graph { state.new.graph ≡ retire_node state.old.graph at }
    ensures told { state.new.told ≡ state.old.told }
    ensures numbers { (k : ℕ) → HasNumbers k state.old.pending.tally → HasNumbers k state.new.pending.tally }
{
    let node = state.graph.retire(at);
    let items = state.pending.retire(at);
    (node, items)
}

/// A node goes of which nothing is taken, with what waits for it and what follows of that: its box. There is room for what
/// follows.
pub fn remove<B: Node>(alloc: Global, state: &mut State<B>, at: NodeId, stamp: Stamp) -> B
    requires home { IsAtHome state.old.graph at }
    requires work { (a : RunState) × MayGo state.old at a }
    ensures node { (node : NodeRecord) → node_in state.old.graph.nodes at ≡ Some node → B.state result ≡ state_of node }
    ensures stands { (a : RunState) → Stands state.old a → NoneOut a at.0
        → Stands state.new (in_world a (change_all at stamp (retire a.world at) (flat_map aftermath (items_of a.world at)))) }
    ensures gone { node_in state.new.graph.nodes at ≡ None }
{
    let (node, items) = retire(state, at);
    follow_all(alloc, state, stamp, items);
    node
}
