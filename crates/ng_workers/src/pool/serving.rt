// What a seat took is worked on and applied.
ghost use Rattle.std.specs.Prelude.{◌≡◌, ◌<◌, true, false, IfOk, OnOk, OnErr};
ghost use Rattle.ng_base.specs.declared.event.Event.TheVariants.{Apply};
ghost use Rattle.ng_machine.specs.Desk.{Idle};
ghost use Rattle.ng_machine.specs.KnownRun.{AreFit};
ghost use Rattle.ng_machine.specs.Outcome.{nothing};
ghost use Rattle.ng_workers.specs.pool.Going.{IsHalfServed, IsServed};
ghost use Rattle.ng_core.specs.CoreStory.{setting_of, story};
ghost use Rattle.ng_machine.specs.story.Desks.{Others, story_job};
ghost use Rattle.ng_machine.specs.story.SoundStory.{IsSoundStory};
ghost use Rattle.ng_machine.specs.story.Story.{NothingToTake, given_up_by, has_ended, has_failed, with_event};
ghost use Rattle.ng_core_state.specs.Handed.{item_of, job_with};

use crate::pool::work;
use ng_base::NoMemory;
use ng_core::Core;
use ng_core_state::Work;
use ng_machine::Outcome;
use ng_plan::node::Node;
use std::alloc::Global;

/// Does nothing: it says what the core's type keeps of its story.
pub(super) fn know_story<B: Node>(core: &Core<B>)
    ensures sound { IsSoundStory (story core.now) }
    ensures fits { AreFit (setting_of core.now) }
    ensures seats { 0 < core.now.seats }
{
    core.journal();
}

/// Works on what the seat took, and applies it. A node that goes by that is dropped after it.
///
/// # Errors
/// `NoMemory` where memory ran out, and for nothing else; the core is unchanged, and what was taken is dropped.
pub(super) fn finish<B: Node>(
    alloc: Global,
    core: &mut Core<B>,
    seat: u32,
    taken: Work<B>,
) -> Result<(), NoMemory>
    requires running { has_ended (story core.old) ≡ false }
    requires own { job_with B.state taken ≡ story_job (story core.old) seat }
    ensures applied { OnOk result (story core.new ≡ with_event (story core.old) (Apply (item_of taken).id)) }
    ensures own { OnOk result (story_job (story core.new) seat ≡ Idle) }
    ensures err { OnErr result (core.new ≡ core.old) }
    ensures others { Others seat (story core.old) (story core.new) }
{
    know_story(core);
    let Ok(done) = work(alloc, taken) else {
        return Err(NoMemory);
    };
    let Ok(retired) = core.apply(alloc, seat, done) else {
        return Err(NoMemory);
    };
    drop(retired);
    Ok(())
}

/// Takes the least item that may be taken, as the seat 0, and applies it at once; false where there is none. What plans make of
/// packets goes through `outcome`, which has nothing before and after.
///
/// # Errors
/// `NoMemory` where memory ran out, and for nothing else: nothing changed, or the item was taken and is dropped.
pub(super) fn serve_next<B: Node>(
    alloc: Global,
    core: &mut Core<B>,
    outcome: &mut Outcome,
) -> Result<bool, NoMemory>
    requires running { has_ended (story core.old) ≡ false }
    requires idle { story_job (story core.old) 0 ≡ Idle }
    requires blank { outcome.old ≡ nothing }
    ensures served { IfOk result (λ served. served ≡ true → IsServed (story core.old) (story core.new)) }
    ensures none { IfOk result (λ served. served ≡ false → (core.new ≡ core.old) × NothingToTake (story core.old)) }
    ensures halted { OnErr result (IsHalfServed (story core.old) (story core.new)) }
    ensures seats { core.new.seats ≡ core.old.seats }
    ensures blank { OnOk result (outcome.new ≡ nothing) }
    ensures others { Others 0 (story core.old) (story core.new) }
{
    know_story(core);
    if core.serve(alloc, 0, outcome)? {
        return Ok(true);
    }
    let Some(taken) = core.take(alloc, 0)? else {
        return Ok(false);
    };
    finish(alloc, core, 0, taken)?;
    Ok(true)
}

/// The seat 0 gives up, since memory ran out.
pub(super) fn give_up<B: Node>(core: &mut Core<B>)
    ensures gave_up { story core.new ≡ given_up_by (story core.old) 0 }
    ensures failed { has_failed (story core.new) ≡ true }
    ensures others { Others 0 (story core.old) (story core.new) }
{
    know_story(core);
    core.give_up(0);
}
