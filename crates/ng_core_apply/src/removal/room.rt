// Room for what follows of the items that wait for a node, before it goes.
ghost use Rattle.std.specs.Prelude.{◌≡◌, ℕ, ◌+◌, ◌<◌, ◌≤◌, length, get_or, vec_len, vec_capacity, OnOk};
ghost use Rattle.std.specs.VecDeque.{deque_len};
ghost use Rattle.ng_machine.specs.Run.{RunState};
ghost use Rattle.ng_queue.specs.Queues.{list_at, spare_at};
ghost use Rattle.ng_queue.specs.Queue.{waiting_items};
ghost use Rattle.ng_queue.specs.declared.entry.Entry.{Entry as TheEntry};
ghost use Rattle.ng_core_apply.specs.removal.Drops.{is_node, undoes, undoes_in, undone_by, undone_of};
ghost use Rattle.ng_queue.specs.tie.TieLaws.{one};
ghost use Rattle.ng_core_state.specs.Stands.{Stands};

use ng_base::{NoMemory, NodeId};
use ng_core_state::State;
use ng_core_state::step::{widen, widen_told};
use ng_machine::Body;
use ng_plan::node::Node;
use ng_queue::Entry;
use std::collections::VecDeque;

// The node at which a first end is to be taken away again, where the item's body says one.
fn undone_by(body: &Body) -> Option<NodeId>
    ensures { result ≡ undone_by body.now }
{
    match body {
        Body::Join2 { peer, .. } => Some(*peer),
        _ => None,
    }
}

// That of the entry at that place.
fn undone_at(entries: &VecDeque<Entry>, n: usize) -> Option<NodeId>
    requires { n < deque_len entries.now }
    ensures { (entry : TheEntry) → entry ≡ get_or entries.now.items n entry → result ≡ undone_of entry }
{
    match &entries[n] {
        Entry::Waiting(item) => undone_by(&item.body),
        Entry::Out(_) => None,
    }
}

// Room for what follows of the entry at that place.
fn widen_entry<B: Node>(state: &mut State<B>, at: usize, n: usize) -> Result<(), NoMemory>
    requires there { at < length state.old.pending.queues.lists }
    requires within { n < length (list_at state.old.pending.queues.lists at) }
    ensures stands { (a : RunState) → Stands state.old a → Stands state.new a }
    ensures room { OnOk result ((m : ℕ) (entry : TheEntry) → entry ≡ get_or (list_at state.old.pending.queues.lists at) n entry → m < length state.old.pending.queues.lists
        → spare_at state.old.pending.queues.spares m + one (is_node m (undone_of entry)) ≤ spare_at state.new.pending.queues.spares m) }
    ensures lists { state.new.pending.queues.lists ≡ state.old.pending.queues.lists }
    ensures tally { state.new.pending.tally ≡ state.old.pending.tally }
    ensures graph { state.new.graph ≡ state.old.graph }
    ensures told { state.new.told ≡ state.old.told }
{
    match undone_at(state.pending.queues.entries(at), n) {
        Some(peer) => widen(state, peer),
        None => Ok(()),
    }
}

// Room for what follows of all entries.
fn widen_entries<B: Node>(state: &mut State<B>, at: usize, count: usize) -> Result<(), NoMemory>
    requires there { at < length state.old.pending.queues.lists }
    requires count { count ≡ length (list_at state.old.pending.queues.lists at) }
    ensures stands { (a : RunState) → Stands state.old a → Stands state.new a }
    ensures room { OnOk result ((m : ℕ) → m < length state.old.pending.queues.lists
        → spare_at state.old.pending.queues.spares m + undoes_in (list_at state.old.pending.queues.lists at) m ≤ spare_at state.new.pending.queues.spares m) }
    ensures lists { state.new.pending.queues.lists ≡ state.old.pending.queues.lists }
    ensures tally { state.new.pending.tally ≡ state.old.pending.tally }
    ensures graph { state.new.graph ≡ state.old.graph }
    ensures told { state.new.told ≡ state.old.told }
{
    for n in 0..count {
        widen_entry(state, at, n)?;
    }
    Ok(())
}

/// Makes room for what follows of the items that wait for a node and of one more, beside the room that there is for other
/// items.
///
/// # Errors
/// `NoMemory` where memory ran out, and for nothing else; nothing but room changed.
pub fn widen_for_drops<B: Node>(state: &mut State<B>, at: NodeId) -> Result<(), NoMemory>
    requires there { at.0 < length state.old.pending.queues.lists }
    ensures stands { (a : RunState) → Stands state.old a → Stands state.new a }
    ensures room { OnOk result ((m : ℕ) → m < length state.old.pending.queues.lists
        → spare_at state.old.pending.queues.spares m + undoes (waiting_items (list_at state.old.pending.queues.lists at.0)) m ≤ spare_at state.new.pending.queues.spares m) }
    ensures told { OnOk result (vec_len state.new.told + (length (waiting_items (list_at state.old.pending.queues.lists at.0)) + 1) ≤ vec_capacity state.new.told) }
    ensures lists { state.new.pending.queues.lists ≡ state.old.pending.queues.lists }
    ensures tally { state.new.pending.tally ≡ state.old.pending.tally }
    ensures graph { state.new.graph ≡ state.old.graph }
{
    let count = state.pending.queues.entries(at.0 as usize).len();
    widen_entries(state, at.0 as usize, count)?;
    widen_told(state, count + 1)
}
