// What the seat 0 does while it holds the core: it hands in what it worked on, feeds what may be fed, and takes more or closes.
// The first packet or tick is fed once the set-up is done.
ghost use Rattle.std.specs.Prelude.{◌≡◌, ◌<◌, List, false, true, length, None, IfOk, OnOk, OnErr};
ghost use Rattle.ng_machine.specs.declared.input.Input.{Input as TheInput};
ghost use Rattle.ng_machine.specs.Desk.{Idle};
ghost use Rattle.ng_core.specs.CoreStory.{story};
ghost use Rattle.ng_machine.specs.story.Desks.{Others};
ghost use Rattle.ng_machine.specs.story.Story.{has_ended};
ghost use Rattle.ng_workers.specs.Desks.{core_desk};
ghost use Rattle.ng_workers.specs.Driving.{Drives, MayFeed};
ghost use Rattle.ng_workers.specs.Hands.{Brings, Drove, Takes};
ghost use Rattle.ng_workers.specs.pool.Feeding.{begins_with_traffic};
ghost use Rattle.ng_workers.specs.SetUp.{IsAllFed, is_held_back, stage_after};

use crate::feeder::{Feeder, is_held_back, stage_after};
use crate::holding::{Leftover, hand_in, quit, take_next};
use crate::next::Next;
use ng_base::NoMemory;
use ng_core::Core;
use ng_core_state::{Done, Work};
use ng_plan::node::Node;
use std::alloc::Global;

// Feeds the next input, where it may be fed now and isn't held back; false where nothing is fed.
fn feed_one<B: Node>(
    alloc: Global,
    core: &mut Core<B>,
    feeder: &mut Feeder,
) -> Result<bool, NoMemory>
    requires running { has_ended (story core.old) ≡ false }
    requires fits { MayFeed feeder.old (core_desk core.old 0) }
    ensures drives { OnOk result (Drives (core_desk core.old 0) (core_desk core.new 0) feeder.old.unfed feeder.new.unfed None) }
    ensures fits { OnOk result (MayFeed feeder.new (core_desk core.new 0)) }
    ensures less { IfOk result (λ fed. fed ≡ true → length feeder.new.unfed < length feeder.old.unfed) }
    ensures all { IfOk result (λ fed. fed ≡ false → IsAllFed feeder.new.stage (story core.new) feeder.new.unfed) }
    ensures waits { IfOk result (λ fed. fed ≡ true → is_held_back feeder.old.stage (story core.old) feeder.old.unfed ≡ false) }
    ensures stage { IfOk result (λ fed. feeder.new.stage ≡ stage_after feeder.old.stage fed (begins_with_traffic feeder.old.unfed)) }
    ensures running { OnOk result (has_ended (story core.new) ≡ false) }
    ensures job { (core_desk core.new 0).job ≡ (core_desk core.old 0).job }
    ensures stays { (core_desk core.new 0).gave_up ≡ (core_desk core.old 0).gave_up }
    ensures err { OnErr result (core.new ≡ core.old) }
    ensures others { Others 0 (story core.old) (story core.new) }
{
    core.journal();
    if is_held_back(core, feeder) {
        return Ok(false);
    }
    let is_traffic = feeder.unfed.is_traffic_next();
    let fed = feeder.unfed.feed_next(alloc, core)?;
    feeder.stage = stage_after(feeder.stage, fed, is_traffic);
    Ok(fed)
}

// Feeds each input that may be fed now, in order, up to one that is held back. After out of memory some were fed.
fn feed_all<B: Node>(alloc: Global, core: &mut Core<B>, feeder: &mut Feeder) -> Result<(), NoMemory>
    requires running { has_ended (story core.old) ≡ false }
    requires fits { MayFeed feeder.old (core_desk core.old 0) }
    ensures drives { OnOk result (Drives (core_desk core.old 0) (core_desk core.new 0) feeder.old.unfed feeder.new.unfed None) }
    ensures fits { OnOk result (MayFeed feeder.new (core_desk core.new 0)) }
    ensures all { OnOk result (IsAllFed feeder.new.stage (story core.new) feeder.new.unfed) }
    ensures running { OnOk result (has_ended (story core.new) ≡ false) }
    ensures some { OnErr result ((left : List TheInput) × Drives (core_desk core.old 0) (core_desk core.new 0) feeder.old.unfed left None) }
    ensures job { (core_desk core.new 0).job ≡ (core_desk core.old 0).job }
    ensures stays { (core_desk core.new 0).gave_up ≡ (core_desk core.old 0).gave_up }
    ensures others { Others 0 (story core.old) (story core.new) }
{
    loop {
        if !feed_one(alloc, core, feeder)? {
            return Ok(());
        }
    }
}

// Closes the core, where it may be closed; else there is nothing to do now.
fn close<B: Node>(core: &mut Core<B>, feeder: &Feeder) -> Next<Work<B>>
    requires running { has_ended (story core.old) ≡ false }
    requires fits { MayFeed feeder.now (core_desk core.old 0) }
    requires stays { (core_desk core.old 0).gave_up ≡ false }
    requires idle { (core_desk core.old 0).job ≡ Idle }
    ensures takes { Takes B.state result (core_desk core.new 0) }
    ensures drove { Drove result (core_desk core.old 0) (core_desk core.new 0) feeder.now.unfed feeder.now }
    ensures others { Others 0 (story core.old) (story core.new) }
{
    match core.close(feeder.unfed.len() as u64) {
        Ok(()) => Next::End,
        Err(_) => Next::Nothing,
    }
}

// Takes an item, or closes the core where nothing is left to do.
fn take_or_close<B: Node>(alloc: Global, core: &mut Core<B>, feeder: &Feeder) -> Next<Work<B>>
    requires running { has_ended (story core.old) ≡ false }
    requires fits { MayFeed feeder.now (core_desk core.old 0) }
    requires stays { (core_desk core.old 0).gave_up ≡ false }
    requires idle { (core_desk core.old 0).job ≡ Idle }
    ensures takes { Takes B.state result (core_desk core.new 0) }
    ensures drove { Drove result (core_desk core.old 0) (core_desk core.new 0) feeder.now.unfed feeder.now }
    ensures others { Others 0 (story core.old) (story core.new) }
{
    core.journal();
    match take_next(alloc, core, 0) {
        Next::Taken(taken) => Next::Taken(taken),
        Next::Nothing => close(core, feeder),
        Next::End => Next::End,
    }
}

// Feeds what may be fed, and then takes an item or closes the core. Where the core has failed or memory runs out the seat gives
// up.
fn feed_and_take<B: Node>(alloc: Global, core: &mut Core<B>, feeder: &mut Feeder) -> Next<Work<B>>
    requires fits { MayFeed feeder.old (core_desk core.old 0) }
    requires stays { (core_desk core.old 0).gave_up ≡ false }
    requires idle { (core_desk core.old 0).job ≡ Idle }
    ensures takes { Takes B.state result (core_desk core.new 0) }
    ensures drove { Drove result (core_desk core.old 0) (core_desk core.new 0) feeder.old.unfed feeder.new }
    ensures others { Others 0 (story core.old) (story core.new) }
{
    core.journal();
    if core.ended() {
        return quit(core, 0);
    }
    match feed_all(alloc, core, feeder) {
        Ok(()) => take_or_close(alloc, core, feeder),
        Err(NoMemory) => {
            core.journal();
            quit(core, 0)
        }
    }
}

/// One holding of the seat 0: what it brings is applied, every input that may be fed is fed, up to one that is held back, and
/// then it takes what is next, or closes the core.
pub(crate) fn lead<B: Node>(
    alloc: Global,
    core: &mut Core<B>,
    feeder: &mut Feeder,
    done: Option<Done<B>>,
) -> (Next<Work<B>>, Leftover<B>)
    requires fits { MayFeed feeder.old (core_desk core.old 0) }
    requires stays { (core_desk core.old 0).gave_up ≡ false }
    requires brings { Brings B.state done (core_desk core.old 0) }
    ensures takes { Takes B.state result.0 (core_desk core.new 0) }
    ensures drove { Drove result.0 (core_desk core.old 0) (core_desk core.new 0) feeder.old.unfed feeder.new }
    ensures others { Others 0 (story core.old) (story core.new) }
{
    core.journal();
    match hand_in(alloc, core, 0, done) {
        Ok(retired) => (feed_and_take(alloc, core, feeder), Ok(retired)),
        Err(done) => (Next::End, Err(done)),
    }
}
