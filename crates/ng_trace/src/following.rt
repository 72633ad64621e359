// A core follows an event, and it is noted what became of that.
ghost use Rattle.std.specs.Prelude.{◌≡◌, ◌<◌, ◌^◌, true, false, length, IfOk, OnOk};
ghost use Rattle.ng_base.specs.declared.event.Event.TheVariants as by;
ghost use Rattle.ng_core.specs.CoreStory.{story};
ghost use Rattle.ng_core_state.specs.Handed.{item_of, job_with};
ghost use Rattle.ng_core_state.specs.Stands.{Stands};
ghost use Rattle.ng_machine.specs.Desk.{Idle};
ghost use Rattle.ng_machine.specs.Run.{RunState};
ghost use Rattle.ng_machine.specs.story.Desks.{Others, story_job};
ghost use Rattle.ng_machine.specs.story.Story.{AreFitFor, has_ended, run_state_of, with_event, world_of};
ghost use Rattle.ng_replay.specs.judge.Following.{Follows, Goes, HoldsWhileOpen, Refuses};
ghost use Rattle.ng_workers.specs.pool.Held.{HoldsJobs};
ghost use Rattle.ng_trace.specs.Endings.{spots};
ghost use Rattle.ng_trace.specs.Watch.{all_waiting, watch_event};

use crate::looking::{look, push_waiting};
use crate::noting::note_seen;
use crate::{Ending, Spot, Watched};
use ng_base::{Cause, Event, ItemId, NoMemory};
use ng_core::Core;
use ng_core_state::{State, Work};
use ng_plan::node::Node;
use ng_replay::judge::{follow, know_story, let_go};
use ng_workers::pool::{Unfed, work};
use std::alloc::Global;

// Works on what the seat took, applies it, and notes what became of it. A node that goes by that is dropped after it.
fn finish<B: Node>(
    alloc: Global,
    core: &mut Core<B>,
    seat: u32,
    taken: Work<B>,
    watched: &mut Watched,
) -> Result<(), NoMemory>
    requires running { has_ended (story core.old) ≡ false }
    requires own { job_with B.state taken ≡ story_job (story core.old) seat }
    ensures applied { OnOk result (story core.new ≡ with_event (story core.old) (by.Apply (item_of taken).id)) }
    ensures own { OnOk result (story_job (story core.new) seat ≡ Idle) }
    ensures others { Others seat (story core.old) (story core.new) }
    ensures seats { core.new.seats ≡ core.old.seats }
    ensures watched { OnOk result (watched.new ≡ watch_event (run_state_of (story core.old)) (world_of (story core.new)) watched.old (by.Apply (item_of taken).id)) }
{
    know_story(core);
    let Ok(done) = work(alloc, taken) else {
        return Err(NoMemory);
    };
    let seen = look(alloc, core.state(), &done)?;
    let Ok(retired) = core.apply(alloc, seat, done) else {
        return Err(NoMemory);
    };
    drop(retired);
    note_seen(alloc, core.state(), &seen, watched)
}

// The seat that holds the item works on it and applies it.
fn apply<B: Node>(
    alloc: Global,
    core: &mut Core<B>,
    held: &mut [Option<Work<B>>],
    unfed: &Unfed,
    id: ItemId,
    watched: &mut Watched,
) -> Result<bool, NoMemory>
    requires running { has_ended (story core.old) ≡ false }
    requires holds { HoldsJobs B.state held.old (story core.old) }
    requires seats { length held.old ≡ core.old.seats }
    requires few { length held.old < 2 ^ 32 }
    requires goes { Goes (story core.old) unfed.now }
    ensures follows { IfOk result (λ yes. yes ≡ true → Follows (story core.old) unfed.now (by.Apply id) (story core.new) unfed.now) }
    ensures refuses { IfOk result (λ yes. yes ≡ false → Refuses (story core.old) unfed.now (by.Apply id)) }
    ensures holds { IfOk result (λ yes. yes ≡ true → HoldsJobs B.state held.new (story core.new)) }
    ensures setting { IfOk result (λ yes. (story core.new).setting ≡ (story core.old).setting) }
    ensures seats { core.new.seats ≡ core.old.seats }
    ensures len { length held.new ≡ length held.old }
    ensures watched { IfOk result (λ yes. yes ≡ true
        → watched.new ≡ watch_event (run_state_of (story core.old)) (world_of (story core.new)) watched.old (by.Apply id)) }
{
    know_story(core);
    let Some((seat, taken)) = let_go(held, id) else {
        return Ok(false);
    };
    finish(alloc, core, seat, taken, watched)?;
    know_story(core);
    Ok(true)
}

// Where all items are that wait, in order of their nodes.
fn all_waiting<B: Node>(alloc: Global, state: &State<B>) -> Result<Vec<Spot>, NoMemory>
    ensures { IfOk result (λ all. (a : RunState) → Stands state.now a → all.items ≡ spots a.world.nodes (all_waiting a)) }
{
    let mut all = Vec::new(alloc);
    for node in 0..state.pending.queues.len() {
        push_waiting(state, node, &mut all)?;
    }
    Ok(all)
}

// The next input is fed.
fn feed<B: Node>(
    alloc: Global,
    core: &mut Core<B>,
    held: &mut [Option<Work<B>>],
    unfed: &mut Unfed,
    watched: &mut Watched,
) -> Result<bool, NoMemory>
    requires holds { HoldsWhileOpen B.state held.old (story core.old) }
    requires seats { length held.old ≡ core.old.seats }
    requires few { length held.old < 2 ^ 32 }
    requires fits { AreFitFor (story core.old) unfed.old }
    requires goes { Goes (story core.old) unfed.old }
    ensures follows { IfOk result (λ yes. yes ≡ true → Follows (story core.old) unfed.old by.Feed (story core.new) unfed.new) }
    ensures refuses { IfOk result (λ yes. yes ≡ false → Refuses (story core.old) unfed.old by.Feed) }
    ensures holds { IfOk result (λ yes. yes ≡ true → HoldsWhileOpen B.state held.new (story core.new)) }
    ensures fits { IfOk result (λ yes. yes ≡ true → AreFitFor (story core.new) unfed.new) }
    ensures seats { core.new.seats ≡ core.old.seats }
    ensures len { length held.new ≡ length held.old }
    ensures watched { IfOk result (λ yes. yes ≡ true
        → watched.new ≡ watch_event (run_state_of (story core.old)) (world_of (story core.new)) watched.old by.Feed) }
{
    let of = core.fed();
    let next = core.state().pending.tally.next_item;
    if !follow(alloc, core, held, unfed, Event::Feed)? {
        return Ok(false);
    }
    let made = core.state().pending.tally.next_item.saturating_sub(next);
    watched.add_items(made, of)?;
    Ok(true)
}

// The core stops.
fn stop<B: Node>(
    alloc: Global,
    core: &mut Core<B>,
    held: &mut [Option<Work<B>>],
    unfed: &mut Unfed,
    watched: &mut Watched,
) -> Result<bool, NoMemory>
    requires holds { HoldsWhileOpen B.state held.old (story core.old) }
    requires seats { length held.old ≡ core.old.seats }
    requires few { length held.old < 2 ^ 32 }
    requires fits { AreFitFor (story core.old) unfed.old }
    requires goes { Goes (story core.old) unfed.old }
    ensures follows { IfOk result (λ yes. yes ≡ true → Follows (story core.old) unfed.old by.Stop (story core.new) unfed.new) }
    ensures refuses { IfOk result (λ yes. yes ≡ false → Refuses (story core.old) unfed.old by.Stop) }
    ensures holds { IfOk result (λ yes. yes ≡ true → HoldsWhileOpen B.state held.new (story core.new)) }
    ensures fits { IfOk result (λ yes. yes ≡ true → AreFitFor (story core.new) unfed.new) }
    ensures seats { core.new.seats ≡ core.old.seats }
    ensures len { length held.new ≡ length held.old }
    ensures watched { IfOk result (λ yes. yes ≡ true
        → watched.new ≡ watch_event (run_state_of (story core.old)) (world_of (story core.new)) watched.old by.Stop) }
{
    let waiting = all_waiting(alloc, core.state())?;
    if !follow(alloc, core, held, unfed, Event::Stop)? {
        return Ok(false);
    }
    watched.note_drops(Ending::Dropped(Cause::Budget), &waiting)?;
    Ok(true)
}

// An item is applied, where no core has ended.
fn apply_open<B: Node>(
    alloc: Global,
    core: &mut Core<B>,
    held: &mut [Option<Work<B>>],
    unfed: &Unfed,
    id: ItemId,
    watched: &mut Watched,
) -> Result<bool, NoMemory>
    requires holds { HoldsWhileOpen B.state held.old (story core.old) }
    requires seats { length held.old ≡ core.old.seats }
    requires few { length held.old < 2 ^ 32 }
    requires fits { AreFitFor (story core.old) unfed.now }
    requires goes { Goes (story core.old) unfed.now }
    ensures follows { IfOk result (λ yes. yes ≡ true → Follows (story core.old) unfed.now (by.Apply id) (story core.new) unfed.now) }
    ensures refuses { IfOk result (λ yes. yes ≡ false → Refuses (story core.old) unfed.now (by.Apply id)) }
    ensures holds { IfOk result (λ yes. yes ≡ true → HoldsWhileOpen B.state held.new (story core.new)) }
    ensures fits { IfOk result (λ yes. yes ≡ true → AreFitFor (story core.new) unfed.now) }
    ensures seats { core.new.seats ≡ core.old.seats }
    ensures len { length held.new ≡ length held.old }
    ensures watched { IfOk result (λ yes. yes ≡ true
        → watched.new ≡ watch_event (run_state_of (story core.old)) (world_of (story core.new)) watched.old (by.Apply id)) }
{
    if core.ended() {
        return Ok(false);
    }
    apply(alloc, core, held, unfed, id, watched)
}

/// Follows an event, where it is allowed, and notes what became of it; false where it isn't, and the core is of no more use then.
///
/// # Errors
/// `NoMemory` where memory ran out, or where a count would be greater than 2^64 - 1.
pub(crate) fn step<B: Node>(
    alloc: Global,
    core: &mut Core<B>,
    held: &mut [Option<Work<B>>],
    unfed: &mut Unfed,
    event: Event,
    watched: &mut Watched,
) -> Result<bool, NoMemory>
    requires holds { HoldsWhileOpen B.state held.old (story core.old) }
    requires seats { length held.old ≡ core.old.seats }
    requires few { length held.old < 2 ^ 32 }
    requires fits { AreFitFor (story core.old) unfed.old }
    requires goes { Goes (story core.old) unfed.old }
    ensures follows { IfOk result (λ yes. yes ≡ true → Follows (story core.old) unfed.old event (story core.new) unfed.new) }
    ensures refuses { IfOk result (λ yes. yes ≡ false → Refuses (story core.old) unfed.old event) }
    ensures holds { IfOk result (λ yes. yes ≡ true → HoldsWhileOpen B.state held.new (story core.new)) }
    ensures fits { IfOk result (λ yes. yes ≡ true → AreFitFor (story core.new) unfed.new) }
    ensures seats { core.new.seats ≡ core.old.seats }
    ensures len { length held.new ≡ length held.old }
    ensures watched { IfOk result (λ yes. yes ≡ true
        → watched.new ≡ watch_event (run_state_of (story core.old)) (world_of (story core.new)) watched.old event) }
{
    match event {
        Event::Feed => feed(alloc, core, held, unfed, watched),
        Event::Take { .. } | Event::Back { .. } => follow(alloc, core, held, unfed, event),
        Event::Apply { id } => apply_open(alloc, core, held, unfed, id, watched),
        Event::Stop => stop(alloc, core, held, unfed, watched),
    }
}
