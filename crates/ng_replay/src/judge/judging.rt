// A journal is judged.
ghost use Rattle.std.specs.Prelude.{◌≡◌, ◌<◌, ◌^◌, ℕ, List, [], None, true, false, length, IfOk, IfSome, IfNone};
ghost use Rattle.ng_machine.specs.declared.input.Input.{Input as TheInput};
ghost use Rattle.ng_replay.specs.judge.Following.{Goes, HasFollowed, HoldsWhileOpen, StandsAfter, all_with};
ghost use Rattle.ng_replay.specs.judge.Verdict.{IsFirstRefused, IsVerdict};
ghost use Rattle.ng_replay.specs.declared.judge.verdict.Verdict.TheVariants.{Yes};
ghost use Rattle.ng_machine.specs.Laws.{start};
ghost use Rattle.ng_machine.specs.Orderly.{IsWhole};
ghost use Rattle.ng_workers.specs.pool.Held.{held_at};
ghost use Rattle.ng_core.specs.CoreStory.{setting_of, story};
ghost use Rattle.ng_machine.specs.story.Story.{AreFitFor, begun};

use crate::judge::Verdict;
use crate::judge::closing::close;
use crate::judge::following::{follow, know_story};
use ng_base::NoMemory;
use ng_core::Core;
use ng_core_state::Work;
use ng_journal::kept::Journal;
use ng_machine::Input;
use ng_plan::node::Node;
use ng_workers::pool::Unfed;
use std::alloc::Global;

/// What so many seats hold at the beginning of a run: each of them nothing.
///
/// # Errors
/// `NoMemory` where memory ran out, and for nothing else.
pub fn empty_hands<B: Node>(alloc: Global, seats: u32) -> Result<Vec<Option<Work<B>>>, NoMemory>
    ensures nothing { IfOk result (λ held. (seat : ℕ) → held_at held.items seat ≡ None) }
    ensures len { IfOk result (λ held. length held.items ≡ seats) }
{
    let mut held = Vec::new(alloc);
    for _ in 0..seats {
        held.push(None)?;
    }
    Ok(held)
}

// Follows the events, in order: the number, from 1, of the first that isn't allowed.
fn follow_all<B: Node>(
    alloc: Global,
    core: &mut Core<B>,
    held: &mut [Option<Work<B>>],
    unfed: &mut Unfed,
    journal: &Journal,
) -> Result<Option<u64>, NoMemory>
    requires holds { HoldsWhileOpen B.state held.old (story core.old) }
    requires seats { length held.old ≡ core.old.seats }
    requires few_seats { length held.old < 2 ^ 32 }
    requires few { length journal.now.items < 2 ^ 63 }
    requires fits { AreFitFor (story core.old) unfed.old }
    requires begun { HasFollowed (all_with (story core.old) unfed.old) [] (story core.old) unfed.old }
    ensures refused { IfOk result (λ o. IfSome o (λ at. IsFirstRefused (all_with (story core.old) unfed.old) journal.now.items at)) }
    ensures followed { IfOk result (λ o. IfNone o (HasFollowed (all_with (story core.old) unfed.old) journal.now.items (story core.new) unfed.new)) }
{
    let mut number = 0;
    for event in journal.events() {
        number += 1;
        let allowed = follow(alloc, core, held, unfed, event)?;
        if !allowed {
            return Ok(Some(number));
        }
    }
    Ok(None)
}

/// Whether a core that has followed a journal is at the run's end: it stopped, or nothing is pending or unfed.
pub fn is_whole<B: Node>(core: &mut Core<B>, unfed: &Unfed) -> bool
    requires goes { Goes (story core.old) unfed.now }
    ensures whole { result ≡ true → IsWhole (start (all_with (story core.old) unfed.now)) (all_with (story core.old) unfed.now).given (story core.old).journal }
    ensures cut { result ≡ false → IsWhole (start (all_with (story core.old) unfed.now)) (all_with (story core.old) unfed.now).given (story core.old).journal → ⊥ }
    ensures same { result ≡ true → StandsAfter (all_with (story core.old) unfed.now) (story core.old).journal (story core.new) unfed.now }
{
    know_story(core);
    core.ended() || close(core, unfed.len() as u64) == Some(false)
}

// Follows the events, and looks whether the run ends with them.
fn verdict_of<B: Node>(
    alloc: Global,
    core: &mut Core<B>,
    held: &mut [Option<Work<B>>],
    unfed: &mut Unfed,
    journal: &Journal,
) -> Result<Verdict, NoMemory>
    requires holds { HoldsWhileOpen B.state held.old (story core.old) }
    requires seats { length held.old ≡ core.old.seats }
    requires few_seats { length held.old < 2 ^ 32 }
    requires fits { AreFitFor (story core.old) unfed.old }
    requires begun { HasFollowed (all_with (story core.old) unfed.old) [] (story core.old) unfed.old }
    ensures verdict { IfOk result (λ verdict. IsVerdict (all_with (story core.old) unfed.old) journal.now.items verdict) }
    ensures stands { IfOk result (λ verdict. verdict ≡ Yes → StandsAfter (all_with (story core.old) unfed.old) journal.now.items (story core.new) unfed.new) }
{
    let count = journal.len() as u64;
    let refused = follow_all(alloc, core, held, unfed, journal)?;
    if let Some(at) = refused {
        return Ok(Verdict::No { at });
    }
    if is_whole(core, unfed) {
        return Ok(Verdict::Yes);
    }
    Ok(Verdict::No { at: count + 1 })
}

/// Judges a journal by a core that was just made and all inputs of its run: `Yes` exactly where each event is allowed where it
/// stands, over these inputs, by the core's limit of applied items and its seats, and the journal is whole. It says nothing of
/// whether another journal would be allowed too. `seats` is the number that the core was made with.
///
/// After a `Yes` the core stands where the run of the journal stands; after a `No` it is of no more use. Each event costs what
/// the core's call for it costs, and a look at what each seat holds.
///
/// # Errors
/// `NoMemory` where memory ran out, and for nothing else; the core is of no more use then.
pub fn judge<B: Node>(
    alloc: Global,
    core: &mut Core<B>,
    seats: u32,
    inputs: Vec<Input>,
    journal: &Journal,
) -> Result<Verdict, NoMemory>
    requires begun { story core.old ≡ begun (setting_of core.old) }
    requires seats { seats ≡ core.old.seats }
    requires fits { AreFitFor (story core.old) inputs.items }
    ensures verdict { IfOk result (λ verdict. IsVerdict (all_with (story core.old) inputs.items) journal.now.items verdict) }
    ensures stands { IfOk result (λ verdict. verdict ≡ Yes → (left : List TheInput) × StandsAfter (all_with (story core.old) inputs.items) journal.now.items (story core.new) left) }
{
    let mut held = empty_hands(alloc, seats)?;
    let mut unfed = Unfed::new(inputs);
    let verdict = verdict_of(alloc, core, &mut held, &mut unfed, journal)?;
    Ok(verdict)
}
