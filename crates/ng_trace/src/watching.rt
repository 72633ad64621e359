// A journal is followed, and judged, and it is noted what became of each packet.
ghost use Rattle.std.specs.Prelude.{◌≡◌, ◌<◌, ◌^◌, ◌++◌, List, [], None, true, false, length, IfOk, IfSome, IfNone};
ghost use Rattle.ng_machine.specs.declared.input.Input.{Input as TheInput};
ghost use Rattle.ng_replay.specs.judge.Following.{HasFollowed, HoldsWhileOpen, StandsAfter, all_with};
ghost use Rattle.ng_replay.specs.judge.Verdict.{IsFirstRefused, IsVerdict};
ghost use Rattle.ng_replay.specs.declared.judge.verdict.Verdict.TheVariants.{Yes};
ghost use Rattle.ng_core.specs.CoreStory.{setting_of, story};
ghost use Rattle.ng_machine.specs.story.Story.{AreFitFor, begun};
ghost use Rattle.ng_trace.specs.Watch.{watched_from, watched_of};
ghost use Rattle.ng_trace.specs.Watched.{nothing_noted};

use crate::Watched;
use crate::following::step;
use ng_base::NoMemory;
use ng_core::Core;
use ng_core_state::Work;
use ng_journal::kept::Journal;
use ng_machine::Input;
use ng_plan::node::Node;
use ng_replay::judge::{Verdict, empty_hands, is_whole, know_story};
use ng_workers::pool::Unfed;
use std::alloc::Global;

// Follows the events, in order, and notes what becomes of each: the number, from 1, of the first that isn't allowed.
fn watch_all<B: Node>(
    alloc: Global,
    core: &mut Core<B>,
    held: &mut [Option<Work<B>>],
    unfed: &mut Unfed,
    journal: &Journal,
    watched: &mut Watched,
) -> Result<Option<u64>, NoMemory>
    requires holds { HoldsWhileOpen B.state held.old (story core.old) }
    requires seats { length held.old ≡ core.old.seats }
    requires few_seats { length held.old < 2 ^ 32 }
    requires few { length journal.now.items < 2 ^ 63 }
    requires fits { AreFitFor (story core.old) unfed.old }
    requires begun { HasFollowed (all_with (story core.old) unfed.old) [] (story core.old) unfed.old }
    ensures refused { IfOk result (λ o. IfSome o (λ at. IsFirstRefused (all_with (story core.old) unfed.old) journal.now.items at)) }
    ensures followed { IfOk result (λ o. IfNone o (HasFollowed (all_with (story core.old) unfed.old) journal.now.items (story core.new) unfed.new)) }
    ensures watched { IfOk result (λ o. IfNone o (watched.new ≡ watched_from (all_with (story core.old) unfed.old) watched.old journal.now.items)) }
{
    let mut number = 0;
    for event in journal.events() {
        number += 1;
        let allowed = step(alloc, core, held, unfed, event, watched)?;
        if !allowed {
            return Ok(Some(number));
        }
    }
    Ok(None)
}

// Follows the events, and looks whether the run ends with them.
fn verdict_of<B: Node>(
    alloc: Global,
    core: &mut Core<B>,
    held: &mut [Option<Work<B>>],
    unfed: &mut Unfed,
    journal: &Journal,
    watched: &mut Watched,
) -> Result<Verdict, NoMemory>
    requires holds { HoldsWhileOpen B.state held.old (story core.old) }
    requires seats { length held.old ≡ core.old.seats }
    requires few_seats { length held.old < 2 ^ 32 }
    requires fits { AreFitFor (story core.old) unfed.old }
    requires begun { HasFollowed (all_with (story core.old) unfed.old) [] (story core.old) unfed.old }
    ensures verdict { IfOk result (λ verdict. IsVerdict (all_with (story core.old) unfed.old) journal.now.items verdict) }
    ensures stands { IfOk result (λ verdict. verdict ≡ Yes → StandsAfter (all_with (story core.old) unfed.old) journal.now.items (story core.new) unfed.new) }
    ensures watched { IfOk result (λ verdict. verdict ≡ Yes → watched.new ≡ watched_from (all_with (story core.old) unfed.old) watched.old journal.now.items) }
{
    let count = journal.len() as u64;
    let refused = watch_all(alloc, core, held, unfed, journal, watched)?;
    if let Some(at) = refused {
        return Ok(Verdict::No { at });
    }
    if is_whole(core, unfed) {
        return Ok(Verdict::Yes);
    }
    Ok(Verdict::No { at: count + 1 })
}

/// Judges a journal as a replay does, by a core that was just made and all inputs of its run; and notes of which input each item
/// came, what became of the packet of each input, and how often something ended at each node. What is noted is of use only after a
/// `Yes`; then the core stands where the run of the journal stands. `seats` is the number that the core was made with.
///
/// Each event costs what the core's call for it costs, a look at what each seat holds, and what is noted of it. Where a message or
/// the going of a peer is applied, what waits at the node is looked at besides.
///
/// # Errors
/// `NoMemory` where memory ran out, or where a count would be greater than 2^64 - 1; the core is of no more use then.
pub fn watch<B: Node>(
    alloc: Global,
    core: &mut Core<B>,
    seats: u32,
    inputs: Vec<Input>,
    journal: &Journal,
) -> Result<(Verdict, Watched), NoMemory>
    requires begun { story core.old ≡ begun (setting_of core.old) }
    requires seats { seats ≡ core.old.seats }
    requires fits { AreFitFor (story core.old) inputs.items }
    ensures verdict { IfOk result (λ judged. IsVerdict (all_with (story core.old) inputs.items) journal.now.items judged.0) }
    ensures stands { IfOk result (λ judged. judged.0 ≡ Yes → (left : List TheInput) × StandsAfter (all_with (story core.old) inputs.items) journal.now.items (story core.new) left) }
    ensures watched { IfOk result (λ judged. judged.0 ≡ Yes → judged.1 ≡ watched_of (all_with (story core.old) inputs.items) journal.now.items) }
{
    know_story(core);
    let mut unfed = Unfed::new(inputs);
    let mut watched = Watched::new(alloc, unfed.len())?;
    let mut held = empty_hands(alloc, seats)?;
    let verdict = verdict_of(alloc, core, &mut held, &mut unfed, journal, &mut watched)?;
    Ok((verdict, watched))
}
