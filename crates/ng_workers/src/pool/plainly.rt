// A run of one seat that does one thing after another.
ghost use Rattle.std.specs.Prelude.{◌≡◌, ◌<◌, [], List, length, true, false, None, IfOk, OnOk, OnErr};
ghost use Rattle.ng_machine.specs.declared.input.Input.{Input as TheInput};
ghost use Rattle.ng_machine.specs.Outcome.{nothing};
ghost use Rattle.ng_workers.specs.pool.Going.{Going, to_do};
ghost use Rattle.ng_workers.specs.pool.Plainly.{WentPartly, WentPlainly};
ghost use Rattle.ng_core.specs.CoreStory.{story};
ghost use Rattle.ng_machine.specs.story.Closing.{close_refusal, closed_with};
ghost use Rattle.ng_machine.specs.story.Desks.{Others};
ghost use Rattle.ng_machine.specs.story.Story.{AreFitFor, Story, has_ended, has_failed, run_state_of};

use crate::pool::serving::{give_up, know_story, serve_next};
use crate::pool::unfed::Unfed;
use ng_base::NoMemory;
use ng_core::Core;
use ng_machine::{Input, Outcome};
use ng_plan::node::Node;
use ng_plan::nothing;
use std::alloc::Global;

// One thing: an item is taken and applied, or where none may be taken the next input is fed. False where there is neither.
fn go_on<B: Node>(
    alloc: Global,
    core: &mut Core<B>,
    unfed: &mut Unfed,
    outcome: &mut Outcome,
) -> Result<bool, NoMemory>
    requires running { has_ended (story core.old) ≡ false }
    requires idle { (run_state_of (story core.old)).taken ≡ [] }
    requires fits { AreFitFor (story core.old) unfed.old }
    requires blank { outcome.old ≡ nothing }
    ensures going { (start : Story) (inputs : List TheInput) → Going start inputs (story core.old) unfed.old → OnOk result (Going start inputs (story core.new) unfed.new) }
    ensures partly { (start : Story) (inputs : List TheInput) → Going start inputs (story core.old) unfed.old
        → OnErr result (WentPartly start inputs (story core.new)) }
    ensures running { OnOk result (has_ended (story core.new) ≡ false) }
    ensures idle { OnOk result ((run_state_of (story core.new)).taken ≡ []) }
    ensures fits { OnOk result (AreFitFor (story core.new) unfed.new) }
    ensures blank { OnOk result (outcome.new ≡ nothing) }
    ensures less { IfOk result (λ more. more ≡ true → to_do (story core.new) unfed.new < to_do (story core.old) unfed.old) }
    ensures done { IfOk result (λ more. more ≡ false → close_refusal (story core.new) (length unfed.new) ≡ None) }
    ensures others { Others 0 (story core.old) (story core.new) }
{
    know_story(core);
    if serve_next(alloc, core, outcome)? {
        know_story(core);
        return Ok(true);
    }
    let fed = unfed.feed_next(alloc, core)?;
    Ok(fed)
}

// One thing after another, until nothing is left to do or the limit of applied items is reached.
fn go_to_the_end<B: Node>(
    alloc: Global,
    core: &mut Core<B>,
    unfed: &mut Unfed,
    outcome: &mut Outcome,
) -> Result<(), NoMemory>
    requires running { has_ended (story core.old) ≡ false }
    requires idle { (run_state_of (story core.old)).taken ≡ [] }
    requires fits { AreFitFor (story core.old) unfed.old }
    requires blank { outcome.old ≡ nothing }
    ensures going { (start : Story) (inputs : List TheInput) → Going start inputs (story core.old) unfed.old → OnOk result (Going start inputs (story core.new) unfed.new) }
    ensures partly { (start : Story) (inputs : List TheInput) → Going start inputs (story core.old) unfed.old
        → OnErr result (WentPartly start inputs (story core.new)) }
    ensures running { OnOk result (has_ended (story core.new) ≡ false) }
    ensures idle { OnOk result ((run_state_of (story core.new)).taken ≡ []) }
    ensures done { OnOk result (close_refusal (story core.new) (length unfed.new) ≡ None) }
    ensures others { Others 0 (story core.old) (story core.new) }
{
    know_story(core);
    loop {
        if !go_on(alloc, core, unfed, outcome)? {
            return Ok(());
        }
    }
}

// The core is closed, where it may be.
fn close<B: Node>(core: &mut Core<B>, unfed: &Unfed)
    requires running { has_ended (story core.old) ≡ false }
    requires done { close_refusal (story core.old) (length unfed.now) ≡ None }
    ensures closed { story core.new ≡ closed_with (story core.old) (length unfed.now) }
    ensures others { Others 0 (story core.old) (story core.new) }
{
    let Ok(()) = core.close(unfed.len() as u64) else {
        unreachable!()
    };
}

/// Goes on plainly from where the core stands, as the seat 0, and closes it: while something is pending, the item of the least
/// number is taken, worked on and applied, and else the next input is fed, until nothing is left or the limit of applied items
/// is reached. Nothing may be taken when it is called.
///
/// # Errors
/// `NoMemory` where memory ran out, and for nothing else. The seat 0 has given up then, and what was fed and done
/// before stands.
pub fn plain<B: Node>(alloc: Global, core: &mut Core<B>, inputs: Vec<Input>) -> Result<(), NoMemory>
    requires running { has_ended (story core.old) ≡ false }
    requires idle { (run_state_of (story core.old)).taken ≡ [] }
    requires fits { AreFitFor (story core.old) inputs.items }
    ensures plain { OnOk result (WentPlainly (story core.old) inputs.items (story core.new)) }
    ensures partly { OnErr result (WentPartly (story core.old) inputs.items (story core.new)) }
    ensures failed { OnErr result (has_failed (story core.new) ≡ true) }
    ensures others { Others 0 (story core.old) (story core.new) }
{
    know_story(core);
    let mut unfed = Unfed::new(inputs);
    let mut outcome = nothing(alloc);
    match go_to_the_end(alloc, core, &mut unfed, &mut outcome) {
        Ok(()) => {
            know_story(core);
            close(core, &unfed);
            Ok(())
        }
        Err(NoMemory) => {
            give_up(core);
            Err(NoMemory)
        }
    }
}
