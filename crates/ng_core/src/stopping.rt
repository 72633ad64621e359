// What waits is dropped at the limit of applied items.
ghost use Rattle.std.specs.Prelude.{◌≡◌, ℕ, ◌+◌, ◌<◌, ◌≤◌, ◌++◌, [], true, length, ◌&&◌, ◌||◌, nat_lt};
ghost use Rattle.ng_machine.specs.LowRun.{IsLow};
ghost use Rattle.ng_machine.specs.Run.{RunState, stop};
ghost use Rattle.ng_queue.specs.pending.Holds.{in_world};
ghost use Rattle.ng_queue.specs.Queue.{AllWait};
ghost use Rattle.ng_queue.specs.Queues.{list_at};
ghost use Rattle.ng_core.specs.Stops.{stopped_run};
ghost use Rattle.ng_machine.specs.story.DeskLaws.{stop_events};
ghost use Rattle.ng_queue.specs.tie.TieLaws.{one};
ghost use Rattle.ng_core_state.specs.Stands.{Stands};

use ng_base::Event;
use ng_core_state::State;
use ng_journal::kept::Journal;
use ng_plan::node::Node;
use ng_queue::Queues;

// All queues are emptied; nothing is out.
fn clear(queues: &mut Queues)
    requires waits { (n : ℕ) → AllWait (list_at queues.old.lists n) }
    ensures clear { (n : ℕ) → list_at queues.new.lists n ≡ [] }
    ensures lists { length queues.new.lists ≡ length queues.old.lists }
{
    for at in 0..queues.len() {
        queues.purge(at);
    }
}

// All that waits is dropped; nothing is taken.
fn stop<B: Node>(state: &mut State<B>)
    requires { (a : RunState) × Stands state.old a × (a.taken ≡ []) × IsLow a.world }
    ensures stands { (a : RunState) → Stands state.old a → a.taken ≡ [] → Stands state.new (in_world a (stop a.world)) }
    ensures out { state.new.pending.out ≡ state.old.pending.out }
{
    clear(&mut state.pending.queues);
    state.pending.tally.stop();
}

/// Whether a core stops that is closed: the limit is reached, and something is pending or unfed.
pub(crate) fn stops(spent: bool, pending: u64, unfed: u64) -> bool
    ensures { result ≡ (spent && (nat_lt 0 pending || nat_lt 0 unfed)) }
{
    spent && (pending > 0 || unfed > 0)
}

/// A Stop is made, where there is one: all that waits is dropped then.
pub(crate) fn stop_if<B: Node>(stops: bool, state: &mut State<B>, journal: &mut Journal)
    requires work { stops ≡ true → (a : RunState) × Stands state.old a × (a.taken ≡ []) × IsLow a.world }
    requires room { 0 < journal.old.room }
    ensures stands { (a : RunState) → Stands state.old a → (stops ≡ true → a.taken ≡ []) → Stands state.new (stopped_run stops a) }
    ensures out { state.new.pending.out ≡ state.old.pending.out }
    ensures journal { journal.new.items ≡ journal.old.items ++ stop_events stops }
    ensures room { journal.old.room ≤ journal.new.room + one stops }
{
    if stops {
        stop(state);
        journal.push_reserved(Event::Stop);
    }
}
