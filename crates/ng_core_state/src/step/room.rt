// Room for what a step accepts and tells, before anything changes.
ghost use Rattle.std.specs.Prelude.{◌≡◌, ℕ, ◌+◌, ◌<◌, ◌≤◌, length, vec_len, vec_capacity, OnOk};
ghost use Rattle.ng_machine.specs.Run.{RunState};
ghost use Rattle.ng_queue.specs.Queues.{spare_at};
ghost use Rattle.ng_core_state.specs.Stands.{Stands};

use crate::State;
use ng_base::{NoMemory, NodeId};
use ng_plan::node::Node;

/// Makes room for one item more at a node that is there or can be made.
///
/// # Errors
/// `NoMemory` where memory ran out, and for nothing else; nothing but room changed.
pub fn widen<B: Node>(state: &mut State<B>, to: NodeId) -> Result<(), NoMemory>
    ensures stands { (a : RunState) → Stands state.old a → Stands state.new a }
    ensures room { OnOk result (to.0 < length state.old.pending.queues.lists
        → spare_at state.old.pending.queues.spares to.0 + 1 ≤ spare_at state.new.pending.queues.spares to.0) }
    ensures more { (n : ℕ) → spare_at state.old.pending.queues.spares n ≤ spare_at state.new.pending.queues.spares n }
    ensures lists { state.new.pending.queues.lists ≡ state.old.pending.queues.lists }
    ensures tally { state.new.pending.tally ≡ state.old.pending.tally }
    ensures graph { state.new.graph ≡ state.old.graph }
    ensures told { state.new.told ≡ state.old.told }
    ensures ports { state.new.ports ≡ state.old.ports }
{
    if to.0 as usize >= state.pending.queues.len() {
        return Ok(());
    }
    state.pending.widen(to)
}

/// Makes room for so many entries more that are told.
///
/// # Errors
/// `NoMemory` where memory ran out, and for nothing else; nothing but room changed.
pub fn widen_told<B: Node>(state: &mut State<B>, more: usize) -> Result<(), NoMemory>
    ensures stands { (a : RunState) → Stands state.old a → Stands state.new a }
    ensures room { OnOk result (vec_len state.new.told + more ≤ vec_capacity state.new.told) }
    ensures items { state.new.told.items ≡ state.old.told.items }
    ensures graph { state.new.graph ≡ state.old.graph }
    ensures pending { state.new.pending ≡ state.old.pending }
    ensures ports { state.new.ports ≡ state.old.ports }
{
    state.told.reserve(more)?;
    Ok(())
}
