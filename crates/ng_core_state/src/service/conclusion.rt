// What follows of an item once its node has changed.
ghost use Rattle.std.specs.Prelude.{◌≡◌, ◌+◌, ◌<◌, true, false, length, vec_len, vec_capacity};
ghost use Rattle.ng_machine.specs.Change.{change_all};
ghost use Rattle.ng_machine.specs.Run.{RunState};
ghost use Rattle.ng_queue.specs.pending.Holds.{in_world};
ghost use Rattle.ng_queue.specs.tally.Tally.{HasNumbers};
ghost use Rattle.ng_core_state.specs.Stands.{IsStanding, Stands};
ghost use Rattle.ng_core_state.specs.service.Followers.{follows, is_refused, is_short, one_at, target_by};
ghost use Rattle.ng_core_state.specs.service.Front.{HasFront};
ghost use Rattle.ng_core_state.specs.service.Leaving.{AllMayLeaveBy, arrival_hook};
ghost use Rattle.ng_core_state.specs.service.Room.{HasRoomToLeave};

use crate::State;
use crate::service::delivery::deliver;
use crate::step::refuse;
use ng_base::{Bytes, Errno, NodeId};
use ng_machine::{Body, Door, Item, Outcome};
use ng_plan::node::Node;
use std::alloc::Global;

/// Whether the length of an answer fits its header.
pub fn is_short(reply: &Option<Bytes>) -> bool
    ensures { result ≡ is_short reply.now }
{
    match reply {
        Some(bytes) => bytes.0.len() < 4_294_967_296,
        None => true,
    }
}

/// The node at which an answer waits, or what a packet is to make its node learn.
pub fn target(item: &Item, outcome: &Outcome) -> Option<NodeId>
    ensures { result ≡ target_by item.now.to item.now.body outcome.now.learn outcome.now.answer }
{
    match &item.body {
        Body::Msg(msg) if outcome.answer.is_some() => Some(msg.from),
        Body::Frame {
            door: Door::Hook(_),
            link: Some(_),
            ..
        } if outcome.learn.is_some() => Some(item.to),
        _ => None,
    }
}

// Whether a message is refused.
fn is_refused(body: &Body, errno: Errno) -> bool
    ensures { result ≡ is_refused body.now errno }
{
    match body {
        Body::Msg(_) => errno.0 != 0,
        _ => false,
    }
}

/// What follows once the node has changed: of a message that is refused the error is told, and of all else come what leaves,
/// what waits and what is sent.
pub fn conclude<B: Node>(alloc: Global, state: &mut State<B>, item: &Item, outcome: &mut Outcome)
    requires standing { IsStanding state.old }
    requires short { is_short outcome.old.answer ≡ true }
    requires may { is_refused item.now.body outcome.old.errno ≡ false → AllMayLeaveBy (arrival_hook item.now.body) outcome.old.leaves }
    requires leaving { HasRoomToLeave item.now.to (length outcome.old.leaves) state.old }
    requires told { vec_len state.old.told < vec_capacity state.old.told }
    requires room { HasFront 0 state.old.graph item.now.to (one_at (target_by item.now.to item.now.body outcome.old.learn outcome.old.answer))
        outcome.old.sends state.old.pending }
    requires numbers { HasNumbers (length outcome.old.leaves + (length outcome.old.sends + 2)) state.old.pending.tally }
    ensures { (a : RunState) → Stands state.old a
        → Stands state.new (in_world a (change_all item.now.to item.now.stamp a.world (follows item.now outcome.old))) }
{
    if is_refused(&item.body, outcome.errno) {
        refuse(state, alloc, item.tag, outcome.errno);
        return;
    }
    deliver(alloc, state, item, outcome);
}
