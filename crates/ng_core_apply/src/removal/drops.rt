// What follows of items that are dropped with their node.
ghost use Rattle.std.specs.Prelude.{◌≡◌, ℕ, ◌+◌, ◌<◌, ◌≤◌, length, flat_map, vec_len, vec_capacity};
ghost use Rattle.ng_base.specs.declared.ids.NodeId.{NodeId as NodeNumber};
ghost use Rattle.ng_base.specs.declared.ids.Stamp.{Stamp as TheStamp};
ghost use Rattle.ng_machine.specs.Change.{change_all};
ghost use Rattle.ng_machine.specs.Retire.{aftermath, refuse};
ghost use Rattle.ng_machine.specs.Run.{RunState};
ghost use Rattle.ng_queue.specs.pending.Holds.{in_world};
ghost use Rattle.ng_queue.specs.pending.Room.{Spends};
ghost use Rattle.ng_core_apply.specs.removal.Drops.{HasRoomThere, is_node, undoes, undone_by};
ghost use Rattle.ng_queue.specs.tally.Tally.{HasNumbers};
ghost use Rattle.ng_queue.specs.tie.TieLaws.{one};
ghost use Rattle.ng_core_state.specs.Stands.{IsStanding, Stands};

use ng_base::{Bytes, Errno, Stamp};
use ng_core_state::State;
use ng_core_state::step::accept_at;
use ng_machine::{Body, Item, Told};
use ng_plan::node::Node;
use std::alloc::Global;

/// An error is told to the command that waits for an item, where one does; room for further entries stays.
pub fn tell_refusal<B: Node>(alloc: Global, state: &mut State<B>, tag: Option<u32>, errno: Errno)
    requires { vec_len state.old.told < vec_capacity state.old.told }
    ensures stands { (a : RunState) (at : NodeNumber) (stamp : TheStamp) → Stands state.old a
        → Stands state.new (in_world a (change_all at stamp a.world (refuse tag errno))) }
    ensures told { (n : ℕ) → vec_len state.old.told + (n + 1) ≤ vec_capacity state.old.told → vec_len state.new.told + n ≤ vec_capacity state.new.told }
    ensures graph { state.new.graph ≡ state.old.graph }
    ensures pending { state.new.pending ≡ state.old.pending }
{
    if let Some(command) = tag {
        let why = Bytes(Vec::new(alloc));
        state.told.push_reserved(Told::Refused {
            command,
            errno,
            why,
        });
    }
}

// What follows of one of them; there is room for it.
fn follow<B: Node>(alloc: Global, state: &mut State<B>, stamp: Stamp, dropped: &Item)
    requires standing { IsStanding state.old }
    requires told { vec_len state.old.told < vec_capacity state.old.told }
    requires room { HasRoomThere (λ n. one (is_node n (undone_by dropped.now.body))) state.old }
    requires numbers { HasNumbers 1 state.old.pending.tally }
    ensures stands { (a : RunState) (at : NodeNumber) → Stands state.old a
        → Stands state.new (in_world a (change_all at stamp a.world (aftermath dropped.now))) }
    ensures told { (n : ℕ) → vec_len state.old.told + (n + 1) ≤ vec_capacity state.old.told → vec_len state.new.told + n ≤ vec_capacity state.new.told }
    ensures spares { Spends (λ n. one (is_node n (undone_by dropped.now.body))) state.old.pending state.new.pending }
    ensures lists { length state.new.pending.queues.lists ≡ length state.old.pending.queues.lists }
    ensures graph { state.new.graph ≡ state.old.graph }
    ensures numbers { (k : ℕ) → HasNumbers (k + 1) state.old.pending.tally → HasNumbers k state.new.pending.tally }
{
    match &dropped.body {
        Body::Msg(_) => tell_refusal(alloc, state, dropped.tag, Errno::NXIO),
        Body::Join2 {
            link,
            peer,
            peer_hook,
            ..
        } => {
            let body = Body::Undo {
                hook: *peer_hook,
                link: *link,
                errno: Errno::NXIO,
            };
            accept_at(state, *peer, body, dropped.tag, stamp);
        }
        _ => {}
    }
}

/// What follows of all of them, in order; there is room for it.
pub fn follow_all<B: Node>(alloc: Global, state: &mut State<B>, stamp: Stamp, items: Vec<Item>)
    requires standing { IsStanding state.old }
    requires told { vec_len state.old.told + length items.items ≤ vec_capacity state.old.told }
    requires room { HasRoomThere (undoes items.items) state.old }
    requires numbers { HasNumbers (length items.items) state.old.pending.tally }
    ensures stands { (a : RunState) (at : NodeNumber) → Stands state.old a
        → Stands state.new (in_world a (change_all at stamp a.world (flat_map aftermath items.items))) }
    ensures graph { state.new.graph ≡ state.old.graph }
{
    for dropped in items {
        follow(alloc, state, stamp, &dropped);
    }
}
