// A move is made, or skipped.
ghost use Rattle.std.specs.Prelude.{◌≡◌, ◌<◌, ℕ, List, true, false, None, length, slice_set, IfOk, IfSome, IfNone, OnOk};
ghost use Rattle.ng_base.specs.declared.event.Event.TheVariants.{Back};
ghost use Rattle.ng_machine.specs.KnownRun.{AreFit};
ghost use Rattle.ng_machine.specs.declared.input.Input.{Input};
ghost use Rattle.ng_workers.specs.pool.Held.{HoldsJobs, held_at};
ghost use Rattle.ng_workers.specs.pool.Moves.{Makes, Skips, with_of};
ghost use Rattle.ng_workers.specs.declared.pool.moves.Move.TheVariants as by;
ghost use Rattle.ng_core.specs.CoreStory.{setting_of, story};
ghost use Rattle.ng_machine.specs.story.Desks.{story_job};
ghost use Rattle.ng_machine.specs.story.Story.{AreFitFor, has_ended};

use crate::pool::Move;
use crate::pool::serving::{finish, know_story};
use crate::pool::unfed::Unfed;
use ng_base::NoMemory;
use ng_core::Core;
use ng_core_state::Work;
use ng_plan::node::Node;
use std::alloc::Global;

// The next input is fed, unless the core has ended.
fn feed<B: Node>(
    alloc: Global,
    core: &mut Core<B>,
    held: &[Option<Work<B>>],
    unfed: &mut Unfed,
) -> Result<bool, NoMemory>
    requires holds { HoldsJobs B.state held.now (story core.old) }
    requires fits { AreFitFor (story core.old) unfed.old }
    ensures holds { OnOk result (HoldsJobs B.state held.now (story core.new)) }
    ensures makes { IfOk result (λ made. made ≡ true → Makes (story core.old) unfed.old by.Feed (story core.new) unfed.new × (Skips (story core.old) unfed.old by.Feed → ⊥)) }
    ensures skips { IfOk result (λ made. made ≡ false → (core.new ≡ core.old) × (unfed.new ≡ unfed.old) × Skips (story core.old) unfed.old by.Feed) }
    ensures fits { OnOk result (AreFitFor (story core.new) unfed.new) }
    ensures ends { OnOk result (has_ended (story core.new) ≡ has_ended (story core.old)) }
    ensures seats { core.new.seats ≡ core.old.seats }
{
    if core.ended() {
        return Ok(false);
    }
    let fed = unfed.feed_next(alloc, core)?;
    Ok(fed)
}

// A seat that has nothing takes an item.
fn take<B: Node>(
    alloc: Global,
    core: &mut Core<B>,
    held: &mut [Option<Work<B>>],
    seat: u32,
) -> Result<bool, NoMemory>
    requires holds { HoldsJobs B.state held.old (story core.old) }
    requires seats { length held.old ≡ core.old.seats }
    ensures holds { OnOk result (HoldsJobs B.state held.new (story core.new)) }
    ensures makes { (inputs : List Input) → IfOk result (λ made. made ≡ true → Makes (story core.old) inputs (by.Take seat) (story core.new) inputs × (Skips (story core.old) inputs (by.Take seat) → ⊥)) }
    ensures skips { (inputs : List Input) → IfOk result (λ made. made ≡ false → (core.new ≡ core.old) × Skips (story core.old) inputs (by.Take seat)) }
    ensures ends { OnOk result (has_ended (story core.new) ≡ has_ended (story core.old)) }
    ensures setting { OnOk result ((story core.new).setting ≡ (story core.old).setting) }
    ensures seats { core.new.seats ≡ core.old.seats }
    ensures len { length held.new ≡ length held.old }
{
    let at = seat as usize;
    if at >= held.len() || held[at].is_some() {
        return Ok(false);
    }
    let Some(taken) = core.take(alloc, seat)? else {
        return Ok(false);
    };
    know_story(core);
    held[at] = Some(taken);
    Ok(true)
}

// What a seat holds; then it holds nothing.
fn let_go<B: Node>(held: &mut [Option<Work<B>>], seat: u32) -> Option<Work<B>>
    ensures held { result ≡ held_at held.old seat }
    ensures within { IfSome result (λ work. seat < length held.old) }
    ensures gone { IfSome result (λ work. held.new ≡ slice_set held.old seat None) }
    ensures same { IfNone result (held.new ≡ held.old) }
    ensures len { length held.new ≡ length held.old }
{
    let at = seat as usize;
    if at >= held.len() || held[at].is_none() {
        return None;
    }
    held[at].take()
}

/// A seat puts back what it holds; false where it holds nothing, or there is no such seat.
pub(super) fn put_back<B: Node>(core: &mut Core<B>, held: &mut [Option<Work<B>>], seat: u32) -> bool
    requires holds { HoldsJobs B.state held.old (story core.old) }
    requires seats { length held.old ≡ core.old.seats }
    ensures holds { HoldsJobs B.state held.new (story core.new) }
    ensures back { story core.new ≡ with_of Back (story_job (story core.old) seat) (story core.old) }
    ensures empty { held_at held.new seat ≡ None }
    ensures others { (other : ℕ) → held_at held.old other ≡ None → held_at held.new other ≡ None }
    ensures makes { (inputs : List Input) → result ≡ true → Skips (story core.old) inputs (by.Back seat) → ⊥ }
    ensures skips { (inputs : List Input) → result ≡ false → (core.new ≡ core.old) × Skips (story core.old) inputs (by.Back seat) }
    ensures ends { has_ended (story core.new) ≡ has_ended (story core.old) }
    ensures setting { (story core.new).setting ≡ (story core.old).setting }
    ensures seats { core.new.seats ≡ core.old.seats }
    ensures len { length held.new ≡ length held.old }
{
    let Some(taken) = let_go(held, seat) else {
        return false;
    };
    core.back(seat, taken);
    true
}

// A seat works on what it holds and applies it.
fn apply<B: Node>(
    alloc: Global,
    core: &mut Core<B>,
    held: &mut [Option<Work<B>>],
    seat: u32,
) -> Result<bool, NoMemory>
    requires holds { HoldsJobs B.state held.old (story core.old) }
    requires seats { length held.old ≡ core.old.seats }
    ensures holds { OnOk result (HoldsJobs B.state held.new (story core.new)) }
    ensures makes { (inputs : List Input) → IfOk result (λ made. made ≡ true → Makes (story core.old) inputs (by.Apply seat) (story core.new) inputs × (Skips (story core.old) inputs (by.Apply seat) → ⊥)) }
    ensures skips { (inputs : List Input) → IfOk result (λ made. made ≡ false → (core.new ≡ core.old) × Skips (story core.old) inputs (by.Apply seat)) }
    ensures ends { OnOk result (has_ended (story core.new) ≡ has_ended (story core.old)) }
    ensures setting { OnOk result ((story core.new).setting ≡ (story core.old).setting) }
    ensures seats { core.new.seats ≡ core.old.seats }
    ensures len { length held.new ≡ length held.old }
{
    let Some(taken) = let_go(held, seat) else {
        return Ok(false);
    };
    finish(alloc, core, seat, taken)?;
    Ok(true)
}

/// Makes a move; false where it is skipped.
///
/// # Errors
/// `NoMemory` where memory ran out, and for nothing else.
pub(super) fn make_move<B: Node>(
    alloc: Global,
    core: &mut Core<B>,
    held: &mut [Option<Work<B>>],
    unfed: &mut Unfed,
    one: Move,
) -> Result<bool, NoMemory>
    requires holds { HoldsJobs B.state held.old (story core.old) }
    requires seats { length held.old ≡ core.old.seats }
    requires fits { AreFitFor (story core.old) unfed.old }
    ensures holds { OnOk result (HoldsJobs B.state held.new (story core.new)) }
    ensures makes { IfOk result (λ made. made ≡ true → Makes (story core.old) unfed.old one (story core.new) unfed.new × (Skips (story core.old) unfed.old one → ⊥)) }
    ensures skips { IfOk result (λ made. made ≡ false → (core.new ≡ core.old) × (unfed.new ≡ unfed.old) × Skips (story core.old) unfed.old one) }
    ensures fits { OnOk result (AreFitFor (story core.new) unfed.new) }
    ensures ends { OnOk result (has_ended (story core.new) ≡ has_ended (story core.old)) }
    ensures seats { core.new.seats ≡ core.old.seats }
    ensures len { length held.new ≡ length held.old }
{
    match one {
        Move::Feed => Ok(feed(alloc, core, held, unfed)?),
        Move::Take { seat } => Ok(take(alloc, core, held, seat)?),
        Move::Back { seat } => Ok(put_back(core, held, seat)),
        Move::Apply { seat } => Ok(apply(alloc, core, held, seat)?),
    }
}
