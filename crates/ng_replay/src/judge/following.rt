// A core follows an event.
ghost use Rattle.std.specs.Prelude.{◌≡◌, ◌<◌, ◌^◌, true, false, None, Some, length, slice_set, IfOk, IfSome, IfNone, OnOk};
ghost use Rattle.std.specs.List.{list_any, position_from};
ghost use Rattle.ng_base.specs.declared.event.Event.TheVariants as by;
ghost use Rattle.ng_replay.specs.judge.Following.{Follows, Goes, HoldsWhileOpen, Refuses, has_item};
ghost use Rattle.ng_machine.specs.Desk.{Idle};
ghost use Rattle.ng_machine.specs.KnownRun.{AreFit};
ghost use Rattle.ng_workers.specs.pool.Held.{HoldsJobs, held_at};
ghost use Rattle.ng_core.specs.CoreStory.{setting_of, story};
ghost use Rattle.ng_machine.specs.story.Desks.{Others, story_job};
ghost use Rattle.ng_machine.specs.story.SoundStory.{IsSoundStory};
ghost use Rattle.ng_machine.specs.story.Story.{AreFitFor, has_ended, with_event};
ghost use Rattle.ng_core_state.specs.Handed.{item_of, job_with};

use crate::judge::closing::close;
use ng_base::{Event, ItemId, NoMemory};
use ng_core::Core;
use ng_core_state::Work;
use ng_plan::node::Node;
use ng_workers::pool::{Unfed, work};
use std::alloc::Global;

/// Does nothing: it says what the core's type keeps of its story.
pub fn know_story<B: Node>(core: &Core<B>)
    ensures sound { IsSoundStory (story core.now) }
    ensures fits { AreFit (setting_of core.now) }
{
    core.journal();
}

// Works on what the seat took, and applies it. A node that goes by that is dropped after it.
fn finish<B: Node>(
    alloc: Global,
    core: &mut Core<B>,
    seat: u32,
    taken: Work<B>,
) -> Result<(), NoMemory>
    requires running { has_ended (story core.old) ≡ false }
    requires own { job_with B.state taken ≡ story_job (story core.old) seat }
    ensures applied { OnOk result (story core.new ≡ with_event (story core.old) (by.Apply (item_of taken).id)) }
    ensures own { OnOk result (story_job (story core.new) seat ≡ Idle) }
    ensures others { Others seat (story core.old) (story core.new) }
    ensures seats { core.new.seats ≡ core.old.seats }
{
    know_story(core);
    let Ok(done) = work(alloc, taken) else {
        return Err(NoMemory);
    };
    let Ok(retired) = core.apply(alloc, seat, done) else {
        return Err(NoMemory);
    };
    drop(retired);
    Ok(())
}

// The next input is fed.
fn feed<B: Node>(
    alloc: Global,
    core: &mut Core<B>,
    held: &[Option<Work<B>>],
    unfed: &mut Unfed,
) -> Result<bool, NoMemory>
    requires running { has_ended (story core.old) ≡ false }
    requires holds { HoldsJobs B.state held.now (story core.old) }
    requires fits { AreFitFor (story core.old) unfed.old }
    requires goes { Goes (story core.old) unfed.old }
    ensures follows { IfOk result (λ yes. yes ≡ true → Follows (story core.old) unfed.old by.Feed (story core.new) unfed.new) }
    ensures refuses { IfOk result (λ yes. yes ≡ false → Refuses (story core.old) unfed.old by.Feed) }
    ensures holds { IfOk result (λ yes. yes ≡ true → HoldsJobs B.state held.now (story core.new)) }
    ensures fits { IfOk result (λ yes. yes ≡ true → AreFitFor (story core.new) unfed.new) }
    ensures seats { core.new.seats ≡ core.old.seats }
{
    know_story(core);
    let fed = unfed.feed_next(alloc, core)?;
    know_story(core);
    Ok(fed)
}

// A seat takes the item.
fn take<B: Node>(
    alloc: Global,
    core: &mut Core<B>,
    held: &mut [Option<Work<B>>],
    unfed: &Unfed,
    id: ItemId,
    seat: u32,
) -> Result<bool, NoMemory>
    requires running { has_ended (story core.old) ≡ false }
    requires holds { HoldsJobs B.state held.old (story core.old) }
    requires seats { length held.old ≡ core.old.seats }
    requires goes { Goes (story core.old) unfed.now }
    ensures follows { IfOk result (λ yes. yes ≡ true → Follows (story core.old) unfed.now (by.Take seat id) (story core.new) unfed.now) }
    ensures refuses { IfOk result (λ yes. yes ≡ false → Refuses (story core.old) unfed.now (by.Take seat id)) }
    ensures holds { IfOk result (λ yes. yes ≡ true → HoldsJobs B.state held.new (story core.new)) }
    ensures setting { (story core.new).setting ≡ (story core.old).setting }
    ensures seats { core.new.seats ≡ core.old.seats }
    ensures len { length held.new ≡ length held.old }
{
    know_story(core);
    let at = seat as usize;
    if at >= held.len() || held[at].is_some() {
        return Ok(false);
    }
    let Some(taken) = core.take(alloc, seat)? else {
        return Ok(false);
    };
    know_story(core);
    if taken.id() != id {
        return Ok(false);
    }
    held[at] = Some(taken);
    Ok(true)
}

// Whether what a seat holds is the work on the item.
fn has_item<B: Node>(held: &Option<Work<B>>, id: ItemId) -> bool
    ensures { result ≡ has_item id held.now }
{
    match held {
        Some(taken) => taken.id().0 == id.0,
        None => false,
    }
}

// The place of the first work on the item.
fn position_of<B: Node>(held: &[Option<Work<B>>], id: ItemId) -> Option<usize>
    ensures { result ≡ position_from (has_item id) 0 held.now }
{
    held.iter().position(|one| has_item(one, id))
}

// The seat that holds the item.
fn seat_of<B: Node>(held: &[Option<Work<B>>], id: ItemId) -> Option<usize>
    ensures within { IfSome result (λ seat. seat < length held.now) }
    ensures has { IfSome result (λ seat. has_item id (held_at held.now seat) ≡ true) }
    ensures none { IfNone result (list_any (has_item id) held.now ≡ false) }
{
    position_of(held, id)
}

/// The seat that holds the item, and the work on it; then it holds nothing. None if no seat holds it.
pub fn let_go<B: Node>(held: &mut [Option<Work<B>>], id: ItemId) -> Option<(u32, Work<B>)>
    requires few { length held.old < 2 ^ 32 }
    ensures within { IfSome result (λ gone. gone.0 < length held.old) }
    ensures held { IfSome result (λ gone. held_at held.old gone.0 ≡ Some gone.1) }
    ensures item { IfSome result (λ gone. (item_of gone.1).id ≡ id) }
    ensures gone { IfSome result (λ gone. held.new ≡ slice_set held.old gone.0 None) }
    ensures none { IfNone result (list_any (has_item id) held.old ≡ false) }
    ensures len { length held.new ≡ length held.old }
{
    let Some(seat) = seat_of(held, id) else {
        return None;
    };
    let Some(taken) = held[seat].take() else {
        return None;
    };
    Some((seat as u32, taken))
}

// The item goes back, from the seat that holds it.
fn back<B: Node>(
    core: &mut Core<B>,
    held: &mut [Option<Work<B>>],
    unfed: &Unfed,
    id: ItemId,
) -> bool
    requires running { has_ended (story core.old) ≡ false }
    requires holds { HoldsJobs B.state held.old (story core.old) }
    requires seats { length held.old ≡ core.old.seats }
    requires few { length held.old < 2 ^ 32 }
    requires goes { Goes (story core.old) unfed.now }
    ensures follows { result ≡ true → Follows (story core.old) unfed.now (by.Back id) (story core.new) unfed.now }
    ensures refuses { result ≡ false → Refuses (story core.old) unfed.now (by.Back id) }
    ensures holds { result ≡ true → HoldsJobs B.state held.new (story core.new) }
    ensures setting { (story core.new).setting ≡ (story core.old).setting }
    ensures seats { core.new.seats ≡ core.old.seats }
    ensures len { length held.new ≡ length held.old }
{
    know_story(core);
    let Some((seat, taken)) = let_go(held, id) else {
        return false;
    };
    core.back(seat, taken);
    know_story(core);
    true
}

// The seat that holds the item works on it and applies it. A node that goes by that is dropped after it.
fn apply<B: Node>(
    alloc: Global,
    core: &mut Core<B>,
    held: &mut [Option<Work<B>>],
    unfed: &Unfed,
    id: ItemId,
) -> Result<bool, NoMemory>
    requires running { has_ended (story core.old) ≡ false }
    requires holds { HoldsJobs B.state held.old (story core.old) }
    requires seats { length held.old ≡ core.old.seats }
    requires few { length held.old < 2 ^ 32 }
    requires goes { Goes (story core.old) unfed.now }
    ensures follows { IfOk result (λ yes. yes ≡ true → Follows (story core.old) unfed.now (by.Apply id) (story core.new) unfed.now) }
    ensures refuses { IfOk result (λ yes. yes ≡ false → Refuses (story core.old) unfed.now (by.Apply id)) }
    ensures holds { IfOk result (λ yes. yes ≡ true → HoldsJobs B.state held.new (story core.new)) }
    ensures setting { IfOk result (λ yes. (story core.new).setting ≡ (story core.old).setting) }
    ensures seats { core.new.seats ≡ core.old.seats }
    ensures len { length held.new ≡ length held.old }
{
    know_story(core);
    let Some((seat, taken)) = let_go(held, id) else {
        return Ok(false);
    };
    finish(alloc, core, seat, taken)?;
    know_story(core);
    Ok(true)
}

// The core stops.
fn stop<B: Node>(core: &mut Core<B>, unfed: &Unfed) -> bool
    requires running { has_ended (story core.old) ≡ false }
    requires goes { Goes (story core.old) unfed.now }
    ensures follows { result ≡ true → Follows (story core.old) unfed.now by.Stop (story core.new) unfed.now }
    ensures refuses { result ≡ false → Refuses (story core.old) unfed.now by.Stop }
    ensures ended { result ≡ true → has_ended (story core.new) ≡ true }
    ensures setting { result ≡ true → (story core.new).setting ≡ (story core.old).setting }
    ensures seats { core.new.seats ≡ core.old.seats }
{
    know_story(core);
    let closed = close(core, unfed.len() as u64);
    know_story(core);
    closed.unwrap_or(false)
}

/// Follows an event, as it was in a journal: the core does it where it is allowed, with what each seat holds and the inputs
/// that are left. False where it isn't allowed, and the core is of no more use then.
///
/// # Errors
/// `NoMemory` where memory ran out, and for nothing else.
pub fn follow<B: Node>(
    alloc: Global,
    core: &mut Core<B>,
    held: &mut [Option<Work<B>>],
    unfed: &mut Unfed,
    event: Event,
) -> Result<bool, NoMemory>
    requires holds { HoldsWhileOpen B.state held.old (story core.old) }
    requires seats { length held.old ≡ core.old.seats }
    requires few { length held.old < 2 ^ 32 }
    requires fits { AreFitFor (story core.old) unfed.old }
    requires goes { Goes (story core.old) unfed.old }
    ensures follows { IfOk result (λ yes. yes ≡ true → Follows (story core.old) unfed.old event (story core.new) unfed.new) }
    ensures refuses { IfOk result (λ yes. yes ≡ false → Refuses (story core.old) unfed.old event) }
    ensures holds { IfOk result (λ yes. yes ≡ true → HoldsWhileOpen B.state held.new (story core.new)) }
    ensures fits { IfOk result (λ yes. yes ≡ true → AreFitFor (story core.new) unfed.new) }
    ensures seats { core.new.seats ≡ core.old.seats }
    ensures len { length held.new ≡ length held.old }
{
    if core.ended() {
        return Ok(false);
    }
    match event {
        Event::Feed => feed(alloc, core, held, unfed),
        Event::Take { id, seat } => take(alloc, core, held, unfed, id, seat),
        Event::Back { id } => Ok(back(core, held, unfed, id)),
        Event::Apply { id } => apply(alloc, core, held, unfed, id),
        Event::Stop => Ok(stop(core, unfed)),
    }
}
