// What an outcome brings about beyond its node.
ghost use Rattle.std.specs.Prelude.{◌≡◌, ℕ, ◌+◌, ◌≤◌, true, false, length};
ghost use Rattle.ng_base.specs.declared.ids.NodeId.{NodeId as NodeNumber};
ghost use Rattle.ng_machine.specs.Change.{change_all};
ghost use Rattle.ng_machine.specs.Effect.{posts};
ghost use Rattle.ng_machine.specs.Run.{RunState};
ghost use Rattle.ng_queue.specs.pending.Holds.{in_world};
ghost use Rattle.ng_queue.specs.pending.Room.{HasRoom, Spends};
ghost use Rattle.ng_queue.specs.tally.Tally.{HasNumbers};
ghost use Rattle.ng_core_state.specs.Stands.{IsStanding, Stands};
ghost use Rattle.ng_core_state.specs.service.Followers.{accepts_of, followed_by, follows_if, is_short, one_at, target_by, target_of};
ghost use Rattle.ng_core_state.specs.service.Front.{HasFront};
ghost use Rattle.ng_core_state.specs.service.Leaving.{AllMayLeaveBy, arrival_hook};
ghost use Rattle.ng_core_state.specs.service.Room.{HasRoomToLeave};

use crate::State;
use crate::service::emptying::take_backwards;
use crate::service::follower::{Follower, follower_of};
use crate::service::leaving::leave_any;
use crate::step::accept_at;
use ng_base::{NodeId, Sequence, Stamp};
use ng_machine::{Item, Outcome, Sends};
use ng_plan::node::Node;
use std::alloc::Global;

// An item is accepted, where there is one and its node is there.
fn follow<B: Node>(state: &mut State<B>, also: Option<Follower>, stamp: Stamp)
    requires standing { IsStanding state.old }
    requires room { HasRoom (one_at (target_of also)) state.old.pending }
    requires numbers { HasNumbers 1 state.old.pending.tally }
    ensures stands { (a : RunState) (at : NodeNumber) → Stands state.old a
        → Stands state.new (in_world a (change_all at stamp a.world (accepts_of also))) }
    ensures spares { Spends (one_at (target_of also)) state.old.pending state.new.pending }
    ensures lists { length state.new.pending.queues.lists ≡ length state.old.pending.queues.lists }
    ensures frames { state.old.pending.tally.frames ≤ state.new.pending.tally.frames }
    ensures graph { state.new.graph ≡ state.old.graph }
    ensures numbers { (k : ℕ) → HasNumbers (k + 1) state.old.pending.tally → HasNumbers k state.new.pending.tally }
{
    if let Some(Follower { to, body, tag }) = also {
        accept_at(state, to, body, tag, stamp);
    }
}

// What follows of an item and waits by itself is accepted, where there is such and its node is there.
fn follow_item<B: Node>(state: &mut State<B>, item: &Item, outcome: &mut Outcome)
    requires standing { IsStanding state.old }
    requires short { is_short outcome.old.answer ≡ true }
    requires room { HasRoom (one_at (target_by item.now.to item.now.body outcome.old.learn outcome.old.answer)) state.old.pending }
    requires numbers { HasNumbers 1 state.old.pending.tally }
    ensures stands { (a : RunState) (at : NodeNumber) → Stands state.old a
        → Stands state.new (in_world a (change_all at item.now.stamp a.world (followed_by item.now item.now.body outcome.old.learn outcome.old.answer))) }
    ensures spares { Spends (one_at (target_by item.now.to item.now.body outcome.old.learn outcome.old.answer)) state.old.pending state.new.pending }
    ensures lists { length state.new.pending.queues.lists ≡ length state.old.pending.queues.lists }
    ensures frames { state.old.pending.tally.frames ≤ state.new.pending.tally.frames }
    ensures graph { state.new.graph ≡ state.old.graph }
    ensures numbers { (k : ℕ) → HasNumbers (k + 1) state.old.pending.tally → HasNumbers k state.new.pending.tally }
    ensures sends { outcome.new.sends ≡ outcome.old.sends }
{
    if outcome.learn.is_none() && outcome.answer.is_none() {
        return;
    }
    let reply = outcome.answer.take();
    let also = follower_of(item, outcome.learn, reply);
    follow(state, also, item.stamp);
}

// Packets are sent out of hooks of a node, in order. A hub sends by its hooks in their order, but for one of them.
fn post_all<B: Node>(
    alloc: Global,
    state: &mut State<B>,
    from: NodeId,
    sends: &mut Sends,
    stamp: Stamp,
)
    requires standing { IsStanding state.old }
    requires room { HasFront 0 state.old.graph from (λ n. 0) sends.old state.old.pending }
    requires numbers { HasNumbers (length sends.old) state.old.pending.tally }
    ensures { (a : RunState) → Stands state.old a → Stands state.new (in_world a (change_all from stamp a.world (posts sends.old))) }
{
    let mut backwards = take_backwards(alloc, sends);
    let mut near = 0usize;
    while let Some(send) = backwards.pop() {
        let (hook, packet) = send;
        state.post(from, &hook, near, packet, stamp);
        near = near.wrapping_add(1);
    }
    *sends = Sequence::from_vec(backwards);
}

/// Delivers an outcome at its item's node, whose part has changed: packets leave, a refusal is counted, an item is accepted, and
/// packets are sent.
pub fn deliver<B: Node>(alloc: Global, state: &mut State<B>, item: &Item, outcome: &mut Outcome)
    requires standing { IsStanding state.old }
    requires short { is_short outcome.old.answer ≡ true }
    requires may { AllMayLeaveBy (arrival_hook item.now.body) outcome.old.leaves }
    requires leaving { HasRoomToLeave item.now.to (length outcome.old.leaves) state.old }
    requires room { HasFront 0 state.old.graph item.now.to (one_at (target_by item.now.to item.now.body outcome.old.learn outcome.old.answer))
        outcome.old.sends state.old.pending }
    requires numbers { HasNumbers (length outcome.old.leaves + (length outcome.old.sends + 2)) state.old.pending.tally }
    ensures { (a : RunState) → Stands state.old a
        → Stands state.new (in_world a (change_all item.now.to item.now.stamp a.world (follows_if false item.now item.now.body outcome.old))) }
{
    leave_any(alloc, state, item, &mut outcome.leaves);
    state.count_refused(outcome.errno);
    follow_item(state, item, outcome);
    post_all(alloc, state, item.to, &mut outcome.sends, item.stamp);
}
