// Small changes of a step.
ghost use Rattle.std.specs.Prelude.{◌≡◌, ℕ, ◌+◌, ◌<◌, ◌≤◌, ◌==◌, length, vec_len, vec_capacity, Some};
ghost use Rattle.ng_base.specs.declared.ids.NodeId.{NodeId as NodeNumber};
ghost use Rattle.ng_base.specs.declared.ids.Stamp.{Stamp as TheStamp};
ghost use Rattle.ng_machine.specs.Change.{Accepts, change, change_all};
ghost use Rattle.ng_machine.specs.Retire.{refuse};
ghost use Rattle.ng_machine.specs.Run.{RunState};
ghost use Rattle.ng_machine.specs.World.{NodeRecord, node_in};
ghost use Rattle.ng_queue.specs.pending.Holds.{IsOutIn, dropped_from, in_world};
ghost use Rattle.ng_queue.specs.pending.Room.{Spends};
ghost use Rattle.ng_queue.specs.Queues.{spare_at};
ghost use Rattle.ng_queue.specs.tally.Tally.{HasNumbers};
ghost use Rattle.ng_queue.specs.tie.TieLaws.{one};
ghost use Rattle.ng_core_state.specs.Stands.{IsStanding, MayLeave, Stands};

use crate::State;
use ng_base::{Bytes, Errno, NodeId, Stamp};
use ng_machine::{Body, Item, Told};
use ng_plan::node::Node;
use std::alloc::Global;

/// An item is accepted at a node that is there, where there is room; at a node that isn't there nothing is.
pub fn accept_at<B: Node>(
    state: &mut State<B>,
    to: NodeId,
    body: Body,
    tag: Option<u32>,
    stamp: Stamp,
)
    requires standing { IsStanding state.old }
    requires room { (node : NodeRecord) → node_in state.old.graph.nodes to ≡ Some node → 0 < spare_at state.old.pending.queues.spares to.0 }
    requires numbers { HasNumbers 1 state.old.pending.tally }
    ensures stands { (a : RunState) (at : NodeNumber) → Stands state.old a
        → Stands state.new (in_world a (change at stamp a.world (Accepts to body tag))) }
    ensures spares { Spends (λ n. one (n == to.0)) state.old.pending state.new.pending }
    ensures lists { length state.new.pending.queues.lists ≡ length state.old.pending.queues.lists }
    ensures graph { state.new.graph ≡ state.old.graph }
    ensures told { state.new.told ≡ state.old.told }
    ensures ports { state.new.ports ≡ state.old.ports }
    ensures numbers { (k : ℕ) → HasNumbers (k + 1) state.old.pending.tally → HasNumbers k state.new.pending.tally }
    ensures frames { state.old.pending.tally.frames ≤ state.new.pending.tally.frames }
{
    if let Some(kind) = state.graph.kind(to) {
        state.pending.accept(to, kind, body, tag, stamp);
    }
}

/// An error is told to the command that waits for the item, where one does; there is room for the entry.
pub fn refuse<B: Node>(state: &mut State<B>, alloc: Global, tag: Option<u32>, errno: Errno)
    requires room { vec_len state.old.told < vec_capacity state.old.told }
    ensures stands { (a : RunState) (at : NodeNumber) (stamp : TheStamp) → Stands state.old a
        → Stands state.new (in_world a (change_all at stamp a.world (refuse tag errno))) }
    ensures graph { state.new.graph ≡ state.old.graph }
    ensures pending { state.new.pending ≡ state.old.pending }
    ensures ports { state.new.ports ≡ state.old.ports }
{
    if let Some(command) = tag {
        let why = Bytes(Vec::new(alloc));
        state.told.push_reserved(Told::Refused {
            command,
            errno,
            why,
        });
    }
}

/// A taken packet is dropped, since its hook is gone.
pub fn drop_for_hook<B: Node>(state: &mut State<B>, item: &Item)
    requires out { (a : RunState) × Stands state.old a × IsOutIn a item.now }
    requires leaves { MayLeave state.old.graph item.now }
    requires numbers { HasNumbers 1 state.old.pending.tally }
    ensures stands { (a : RunState) → Stands state.old a → IsOutIn a item.now → Stands state.new (dropped_from a item.now) }
    ensures graph { state.new.graph ≡ state.old.graph }
    ensures spares { state.new.pending.queues.spares ≡ state.old.pending.queues.spares }
    ensures lists { length state.new.pending.queues.lists ≡ length state.old.pending.queues.lists }
    ensures told { state.new.told ≡ state.old.told }
    ensures ports { state.new.ports ≡ state.old.ports }
    ensures numbers { (k : ℕ) → HasNumbers (k + 1) state.old.pending.tally → HasNumbers k state.new.pending.tally }
{
    state.pending.drop_for_hook(item);
}
