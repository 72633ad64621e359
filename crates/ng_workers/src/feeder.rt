// What the driver has to feed, and whether the traffic has begun.
ghost use Rattle.std.specs.Prelude.{◌≡◌};
ghost use Rattle.ng_core.specs.CoreStory.{story};
ghost use Rattle.ng_workers.specs.SetUp.{is_held_back, stage_after};

use crate::pool::Unfed;
use ng_core::Core;
use ng_plan::node::Node;

/// How far a run has come.
#[derive(Clone, Copy)]
pub(crate) enum Stage {
    /// No packet and no tick was fed yet. The first one is held back while anything is pending.
    SetUp,
    /// Nothing is held back any more.
    Traffic,
}

/// The inputs that are left, and how far the run has come.
#[derive(Drop)]
pub(crate) struct Feeder {
    pub(crate) unfed: Unfed,
    pub(crate) stage: Stage,
}

/// Whether the next input is the first packet or tick, and something is pending.
pub(crate) fn is_held_back<B: Node>(core: &Core<B>, feeder: &Feeder) -> bool
    ensures { result ≡ is_held_back feeder.now.stage (story core.now) feeder.now.unfed }
{
    match feeder.stage {
        Stage::SetUp => feeder.unfed.is_traffic_next() && !core.is_quiet(),
        Stage::Traffic => false,
    }
}

/// The stage after an input was tried: whether it was fed, and whether it is a packet or a tick.
pub(crate) fn stage_after(stage: Stage, fed: bool, is_traffic: bool) -> Stage
    ensures { result ≡ stage_after stage fed is_traffic }
{
    if fed && is_traffic {
        Stage::Traffic
    } else {
        stage
    }
}
