// How a core is closed.
ghost use Rattle.std.specs.Prelude.{◌≡◌, ◌⊎◌, ◌<◌, true, false, length, Some, IfSome, IfNone};
ghost use Rattle.ng_core.specs.CoreStory.{story};
ghost use Rattle.ng_machine.specs.story.Closing.{is_spent, stops, stopped_if};
ghost use Rattle.ng_machine.specs.story.Story.{has_ended, world_of};
ghost use Rattle.ng_replay.specs.judge.Following.{HasRest};

use ng_core::Core;
use ng_plan::node::Node;

/// Closes a core where so many inputs are unfed: whether it stopped then. `None` where it isn't closed: below the limit of
/// applied items something is pending or unfed.
pub(super) fn close<B: Node>(core: &mut Core<B>, unfed: u64) -> Option<bool>
    requires running { has_ended (story core.old) ≡ false }
    ensures stops { IfSome result (λ stopped. stopped ≡ stops (story core.old) unfed) }
    ensures closed { IfSome result (λ stopped. story core.new ≡ record (stopped_if stopped (story core.old)) { closed = Some unfed }) }
    ensures rest { IfSome result (λ stopped. stopped ≡ false → HasRest (world_of (story core.old)) unfed → ⊥) }
    ensures below { IfNone result ((is_spent (story core.old) ≡ false) × HasRest (world_of (story core.old)) unfed) }
    ensures seats { core.new.seats ≡ core.old.seats }
{
    let before = core.journal().len();
    if core.close(unfed).is_err() {
        return None;
    }
    Some(core.journal().len() > before)
}
