// The parts of a step, each with what stays as it was.
ghost use Rattle.std.specs.Prelude.{◌≡◌, ℕ, ◌+◌, ◌≤◌, slice_set, length, Some};
ghost use Rattle.ng_machine.specs.Case.{absorb};
ghost use Rattle.ng_machine.specs.Run.{RunState};
ghost use Rattle.ng_machine.specs.World.{NodeRecord, node_at};
ghost use Rattle.ng_machine.specs.declared.item.Item.{Item as TheItem};
ghost use Rattle.ng_queue.specs.pending.Holds.{IsOutIn, done_from, in_world, with_taken};
ghost use Rattle.ng_queue.specs.Queue.{head};
ghost use Rattle.ng_queue.specs.Queues.{IsLeast, list_at};
ghost use Rattle.ng_machine.specs.story.Story.{IsNext};
ghost use Rattle.ng_queue.specs.tally.Tally.{HasNumbers};
ghost use Rattle.ng_topology.specs.Topology.{FitsNodeAt, IsAtHome, IsThere, change_node, give_box, with_kept};
ghost use Rattle.ng_core_state.specs.Stands.{IsStanding, MayLeave, Stands};

use crate::State;
use ng_base::NodeId;
use ng_machine::{Counts, Item};
use ng_plan::node::Node;
use ng_queue::BoxedItem;

/// A taken item is done.
pub fn finish<B: Node>(state: &mut State<B>, item: &Item)
    requires out { (a : RunState) × Stands state.old a × IsOutIn a item.now }
    requires leaves { MayLeave state.old.graph item.now }
    requires numbers { HasNumbers 1 state.old.pending.tally }
    ensures stands { (a : RunState) → Stands state.old a → IsOutIn a item.now → Stands state.new (done_from a item.now) }
    ensures graph { state.new.graph ≡ state.old.graph }
    ensures spares { state.new.pending.queues.spares ≡ state.old.pending.queues.spares }
    ensures lists { length state.new.pending.queues.lists ≡ length state.old.pending.queues.lists }
    ensures told { state.new.told ≡ state.old.told }
    ensures ports { state.new.ports ≡ state.old.ports }
    ensures frames { state.old.pending.tally.frames ≤ state.new.pending.tally.frames + 1 }
    ensures numbers { (k : ℕ) → HasNumbers (k + 1) state.old.pending.tally → HasNumbers k state.new.pending.tally }
{
    state.pending.finish(item);
}

/// The item that is next is taken and done at once. Where it is a writer, its node's box is at home.
pub fn dequeue<B: Node>(state: &mut State<B>, at: usize, seat: u32) -> BoxedItem
    requires standing { IsStanding state.old }
    requires least { IsLeast state.old.pending.queues.lists at }
    requires leaves { (item : TheItem) → head (list_at state.old.pending.queues.lists at) ≡ Some item → MayLeave state.old.graph item }
    requires numbers { HasNumbers 1 state.old.pending.tally }
    ensures head { head (list_at state.old.pending.queues.lists at) ≡ Some result }
    ensures next { (a : RunState) → Stands state.old a → IsNext a result }
    ensures stands { (a : RunState) → Stands state.old a → Stands state.new (done_from (with_taken a result.id.0 seat) result) }
    ensures graph { state.new.graph ≡ state.old.graph }
    ensures spares { state.new.pending.queues.spares ≡ state.old.pending.queues.spares }
    ensures lists { length state.new.pending.queues.lists ≡ length state.old.pending.queues.lists }
    ensures told { state.new.told ≡ state.old.told }
    ensures ports { state.new.ports ≡ state.old.ports }
    ensures frames { state.old.pending.tally.frames ≤ state.new.pending.tally.frames + 1 }
    ensures numbers { (k : ℕ) → HasNumbers (k + 1) state.old.pending.tally → HasNumbers k state.new.pending.tally }
{
    state.pending.dequeue(at, seat)
}

/// What was counted reaches a node whose box is at home.
pub fn absorb<B: Node>(state: &mut State<B>, at: NodeId, counts: &Counts)
    requires home { IsAtHome state.old.graph at }
    ensures stands { (a : RunState) (node : NodeRecord) → Stands state.old a → node_at a.world at ≡ Some node
        → Stands state.new (in_world a (record a.world { nodes = slice_set a.world.nodes at.0 (Some (with_kept (absorb node.kept counts.now) node)) })) }
    ensures graph { state.new.graph ≡ change_node state.old.graph at (λ node. with_kept (absorb node.kept counts.now) node) }
    ensures pending { state.new.pending ≡ state.old.pending }
    ensures told { state.new.told ≡ state.old.told }
    ensures ports { state.new.ports ≡ state.old.ports }
{
    state.graph.absorb(at, counts);
}

/// A box comes home, with what it keeps then.
pub fn bring_home<B: Node>(state: &mut State<B>, at: NodeId, node: B)
    requires there { IsThere state.old.graph at }
    requires fits { FitsNodeAt state.old.graph at (B.state node) }
    ensures stands { (a : RunState) (was : NodeRecord) → Stands state.old a → node_at a.world at ≡ Some was
        → Stands state.new (in_world a (record a.world { nodes = slice_set a.world.nodes at.0 (Some (with_kept (B.state node).kept was)) })) }
    ensures graph { state.new.graph ≡ give_box state.old.graph at (B.state node) }
    ensures pending { state.new.pending ≡ state.old.pending }
    ensures told { state.new.told ≡ state.old.told }
    ensures ports { state.new.ports ≡ state.old.ports }
{
    state.graph.give(at, node);
}

/// An item that is applied is dropped, and its place kept for another.
pub fn reuse<B: Node>(state: &mut State<B>, item: BoxedItem)
    ensures { state.new ≡ state.old }
{
    state.pending.reuse(item);
}
