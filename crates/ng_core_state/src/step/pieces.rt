// Pieces of the steps: an item is done, and then one more is accepted or an error is told.
ghost use Rattle.std.specs.Prelude.{◌≡◌, ℕ, ◌+◌, ◌<◌, length, vec_len, vec_capacity};
ghost use Rattle.ng_machine.specs.Change.{Accepts, change, change_all};
ghost use Rattle.ng_machine.specs.Retire.{refuse};
ghost use Rattle.ng_machine.specs.Run.{RunState};
ghost use Rattle.ng_core_state.specs.step.Steps.{world_at};
ghost use Rattle.ng_queue.specs.pending.Holds.{IsOutIn, done_from, in_world};
ghost use Rattle.ng_queue.specs.Queues.{spare_at};
ghost use Rattle.ng_queue.specs.tally.Tally.{HasNumbers};
ghost use Rattle.ng_core_state.specs.Stands.{MayLeave, Stands};

use crate::State;
use crate::step::changes::{accept_at, refuse};
use ng_base::{Errno, NodeId};
use ng_machine::{Body, Item};
use ng_plan::node::Node;
use std::alloc::Global;

/// A taken item is done; room for further items and for what is told stays.
pub fn finish<B: Node>(state: &mut State<B>, item: &Item)
    requires out { (a : RunState) × Stands state.old a × IsOutIn a item.now }
    requires leaves { MayLeave state.old.graph item.now }
    requires numbers { HasNumbers 1 state.old.pending.tally }
    ensures stands { (a : RunState) → Stands state.old a → IsOutIn a item.now → Stands state.new (done_from a item.now) }
    ensures graph { state.new.graph ≡ state.old.graph }
    ensures told { state.new.told ≡ state.old.told }
    ensures spares { state.new.pending.queues.spares ≡ state.old.pending.queues.spares }
    ensures lists { length state.new.pending.queues.lists ≡ length state.old.pending.queues.lists }
    ensures numbers { (k : ℕ) → HasNumbers (k + 1) state.old.pending.tally → HasNumbers k state.new.pending.tally }
{
    state.pending.finish(item);
}

/// An item is done, and one more is accepted with its tag and its time, at a node that has room where it is there.
pub fn finish_accepted<B: Node>(state: &mut State<B>, item: &Item, to: NodeId, body: Body)
    requires out { (a : RunState) × Stands state.old a × IsOutIn a item.now }
    requires leaves { MayLeave state.old.graph item.now }
    requires room { to.0 < length state.old.pending.queues.lists → 0 < spare_at state.old.pending.queues.spares to.0 }
    requires numbers { HasNumbers 2 state.old.pending.tally }
    ensures { (a : RunState) → Stands state.old a → IsOutIn a item.now
        → Stands state.new (in_world (done_from a item.now) (change item.now.to item.now.stamp (world_at a item.now) (Accepts to body item.now.tag))) }
{
    finish(state, item);
    accept_at(state, to, body, item.tag, item.stamp);
}

/// An item is done, and an error is told to the command that waits for it, where one does; there is room for the entry.
pub fn finish_refused<B: Node>(alloc: Global, state: &mut State<B>, item: &Item, errno: Errno)
    requires out { (a : RunState) × Stands state.old a × IsOutIn a item.now }
    requires leaves { MayLeave state.old.graph item.now }
    requires room { vec_len state.old.told < vec_capacity state.old.told }
    requires numbers { HasNumbers 1 state.old.pending.tally }
    ensures { (a : RunState) → Stands state.old a → IsOutIn a item.now
        → Stands state.new (in_world (done_from a item.now) (change_all item.now.to item.now.stamp (world_at a item.now) (refuse item.now.tag errno))) }
{
    finish(state, item);
    refuse(state, alloc, item.tag, errno);
}
