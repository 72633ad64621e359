// Moves that were chosen beforehand, one after another.
ghost use Rattle.std.specs.Prelude.{◌≡◌, ◌<◌, ◌^◌, ℕ, [], ◌∷◌, ◌++◌, List, true, false, None, length, IfOk, OnOk, OnErr};
ghost use Rattle.ng_machine.specs.declared.input.Input.{Input as TheInput};
ghost use Rattle.ng_machine.specs.Desk.{Idle};
ghost use Rattle.ng_workers.specs.pool.Held.{HoldsJobs, held_at};
ghost use Rattle.ng_machine.specs.story.Desks.{story_job};
ghost use Rattle.ng_workers.specs.pool.Moves.{Makes, Played, Skips, given_back};
ghost use Rattle.ng_core.specs.CoreStory.{story};
ghost use Rattle.ng_machine.specs.story.Story.{AreFitFor, Story, has_ended, has_failed, run_state_of};

use crate::pool::making::{make_move, put_back};
use crate::pool::serving::{give_up, know_story};
use crate::pool::unfed::Unfed;
use crate::pool::{Chosen, Move};
use ng_base::NoMemory;
use ng_core::Core;
use ng_core_state::Work;
use ng_machine::Input;
use ng_plan::node::Node;
use std::alloc::Global;

// A place is noted, unless its move was made.
fn note_unless(made: bool, skipped: &mut Vec<u32>, place: u32) -> Result<(), NoMemory>
    ensures made { made ≡ true → OnOk result (skipped.new.items ≡ skipped.old.items) }
    ensures skipped { made ≡ false → OnOk result (skipped.new.items ≡ skipped.old.items ++ place ∷ []) }
{
    if !made {
        skipped.push(place)?;
    }
    Ok(())
}

// The moves, in order: the places of those that are skipped.
fn make_moves<B: Node>(
    alloc: Global,
    core: &mut Core<B>,
    held: &mut [Option<Work<B>>],
    unfed: &mut Unfed,
    moves: &[Move],
) -> Result<Vec<u32>, NoMemory>
    requires holds { HoldsJobs B.state held.old (story core.old) }
    requires seats { length held.old ≡ core.old.seats }
    requires few { length moves.now < 2 ^ 32 }
    requires fits { AreFitFor (story core.old) unfed.old }
    ensures holds { OnOk result (HoldsJobs B.state held.new (story core.new)) }
    ensures played { IfOk result (λ skipped. Played moves.now 0 (story core.old) unfed.old skipped.items (story core.new) unfed.new) }
    ensures fits { OnOk result (AreFitFor (story core.new) unfed.new) }
    ensures ends { OnOk result (has_ended (story core.new) ≡ has_ended (story core.old)) }
    ensures seats { core.new.seats ≡ core.old.seats }
    ensures len { length held.new ≡ length held.old }
{
    let mut skipped = Vec::new(alloc);
    let mut place = 0;
    for one in moves {
        let made = make_move(alloc, core, held, unfed, *one)?;
        note_unless(made, &mut skipped, place)?;
        place += 1;
    }
    Ok(skipped)
}

// Each seat gives back what it holds, in order of seats.
fn give_back<B: Node>(core: &mut Core<B>, seats: u32, held: &mut [Option<Work<B>>])
    requires holds { HoldsJobs B.state held.old (story core.old) }
    requires len { length held.old ≡ seats }
    requires seats { seats ≡ core.old.seats }
    ensures back { story core.new ≡ given_back seats 0 (story core.old) }
    ensures ends { has_ended (story core.new) ≡ has_ended (story core.old) }
    ensures setting { (story core.new).setting ≡ (story core.old).setting }
    ensures idle { (seat : ℕ) → story_job (story core.new) seat ≡ Idle }
    ensures seats { core.new.seats ≡ core.old.seats }
{
    for seat in 0..seats {
        put_back(core, held, seat);
    }
}

// Each seat holds nothing.
fn empty_hands<B: Node>(alloc: Global, seats: u32) -> Result<Vec<Option<Work<B>>>, NoMemory>
    ensures nothing { IfOk result (λ held. (seat : ℕ) → held_at held.items seat ≡ None) }
    ensures len { IfOk result (λ held. length held.items ≡ seats) }
{
    let mut held = Vec::new(alloc);
    for _ in 0..seats {
        held.push(None)?;
    }
    Ok(held)
}

// The moves, and then each seat gives back what it holds.
fn play<B: Node>(
    alloc: Global,
    core: &mut Core<B>,
    seats: u32,
    unfed: &mut Unfed,
    moves: &[Move],
) -> Result<Vec<u32>, NoMemory>
    requires seats { seats ≡ core.old.seats }
    requires few { length moves.now < 2 ^ 32 }
    requires idle { (run_state_of (story core.old)).taken ≡ [] }
    requires fits { AreFitFor (story core.old) unfed.old }
    ensures played { IfOk result (λ skipped. (s : Story) × Played moves.now 0 (story core.old) unfed.old skipped.items s unfed.new × (story core.new ≡ given_back seats 0 s)) }
    ensures idle { OnOk result ((seat : ℕ) → story_job (story core.new) seat ≡ Idle) }
    ensures fits { OnOk result (AreFitFor (story core.new) unfed.new) }
    ensures ends { OnOk result (has_ended (story core.new) ≡ has_ended (story core.old)) }
{
    let mut held = empty_hands(alloc, seats)?;
    let skipped = make_moves(alloc, core, &mut held, unfed, moves)?;
    give_back(core, seats, &mut held);
    Ok(skipped)
}

/// Makes moves in their order, each for the seat that it names, and then each seat puts back what it still has, in order of
/// seats. Nothing may be taken when it is called, and the core may have ended: then each move is skipped.
///
/// A `Feed` is skipped where no input is left, the core has ended, or the machine doesn't feed the next input now; a `Take`
/// where there is no such seat, it has an item, or nothing is to be taken; a `Back` and an `Apply` where there is no such seat
/// or it has no item. `seats` is the number that the core was made with.
///
/// # Errors
/// `NoMemory` where memory ran out, and for nothing else; the seat 0 has given up then.
pub fn chosen<B: Node>(
    alloc: Global,
    core: &mut Core<B>,
    seats: u32,
    inputs: Vec<Input>,
    moves: &[Move],
) -> Result<Chosen, NoMemory>
    requires seats { seats ≡ core.old.seats }
    requires few { length moves.now < 2 ^ 32 }
    requires idle { (run_state_of (story core.old)).taken ≡ [] }
    requires fits { AreFitFor (story core.old) inputs.items }
    ensures played { IfOk result (λ chosen. (s : Story) × Played moves.now 0 (story core.old) inputs.items chosen.skipped.items s chosen.left.items × (story core.new ≡ given_back seats 0 s)) }
    ensures idle { OnOk result (has_ended (story core.old) ≡ false → (run_state_of (story core.new)).taken ≡ []) }
    ensures fits { IfOk result (λ chosen. AreFitFor (story core.new) chosen.left.items) }
    ensures ends { OnOk result (has_ended (story core.new) ≡ has_ended (story core.old)) }
    ensures failed { OnErr result (has_failed (story core.new) ≡ true) }
{
    let mut unfed = Unfed::new(inputs);
    match play(alloc, core, seats, &mut unfed, moves) {
        Ok(skipped) => {
            know_story(core);
            Ok(Chosen {
                skipped,
                left: unfed.into_inputs(),
            })
        }
        Err(NoMemory) => {
            give_up(core);
            Err(NoMemory)
        }
    }
}
