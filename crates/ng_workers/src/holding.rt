// What a seat does while it holds the core: it hands in what it worked on, and takes more.
ghost use Rattle.std.specs.Prelude.{◌≡◌, ◌<◌, true, false, OnOk, OnErr, IfSome, IfNone, Some};
ghost use Rattle.ng_base.specs.declared.event.Event.TheVariants.{Back};
ghost use Rattle.ng_machine.specs.Desk.{Idle};
ghost use Rattle.ng_workers.specs.pool.Workable.{IsWorkable};
ghost use Rattle.ng_core.specs.CoreStory.{story};
ghost use Rattle.ng_machine.specs.story.Desks.{Others, story_job};
ghost use Rattle.ng_machine.specs.story.Story.{given_up_by, has_ended, with_event};
ghost use Rattle.ng_core_state.specs.Handed.{item_of, job_with};
ghost use Rattle.ng_workers.specs.Desks.{Grew, core_desk};
ghost use Rattle.ng_workers.specs.Hands.{Brings, IfEnd, IfNothing, Takes};

use crate::next::Next;
use crate::pool::jobs_are_workable;
use ng_base::NoMemory;
use ng_core::Core;
use ng_core_state::{Done, Work};
use ng_plan::node::Node;
use std::alloc::Global;

/// What a seat handed in leaves outside: the box of a node that went, or what wasn't applied. It is dropped once the core is
/// put back.
pub(crate) type Leftover<B> = Result<Option<B>, Done<B>>;

// Does nothing: what the seat has taken can be worked on.
fn know_work<B: Node>(core: &Core<B>, seat: u32)
    requires { has_ended (story core.now) ≡ false }
    ensures { IsWorkable (story_job (story core.now) seat) }
{
    core.journal();
    jobs_are_workable();
}

// Applies what was done. Where the core has ended before, or memory runs out, the seat gives up, and what was done comes back.
fn apply<B: Node>(alloc: Global, core: &mut Core<B>, seat: u32, done: Done<B>) -> Leftover<B>
    requires seat { seat < core.old.seats }
    requires stays { (core_desk core.old seat).gave_up ≡ false }
    requires brings { Brings B.state (Some done) (core_desk core.old seat) }
    ensures idle { OnOk result ((core_desk core.new seat).job ≡ Idle) }
    ensures stays { OnOk result ((core_desk core.new seat).gave_up ≡ false) }
    ensures gave_up { OnErr result ((core_desk core.new seat).gave_up ≡ true) }
    ensures seats { core.new.seats ≡ core.old.seats }
    ensures grew { Grew (core_desk core.old seat) (core_desk core.new seat) }
    ensures others { Others seat (story core.old) (story core.new) }
{
    if core.ended() {
        core.give_up(seat);
        return Err(done);
    }
    match core.apply(alloc, seat, done) {
        Ok(retired) => Ok(retired),
        Err(done) => {
            core.give_up(seat);
            Err(done)
        }
    }
}

/// Applies what the seat brings, where it brings anything. Where the core has ended before, or memory runs out, the seat gives
/// up.
pub(crate) fn hand_in<B: Node>(
    alloc: Global,
    core: &mut Core<B>,
    seat: u32,
    done: Option<Done<B>>,
) -> Leftover<B>
    requires seat { seat < core.old.seats }
    requires stays { (core_desk core.old seat).gave_up ≡ false }
    requires brings { Brings B.state done (core_desk core.old seat) }
    ensures idle { OnOk result ((core_desk core.new seat).job ≡ Idle) }
    ensures stays { OnOk result ((core_desk core.new seat).gave_up ≡ false) }
    ensures gave_up { OnErr result ((core_desk core.new seat).gave_up ≡ true) }
    ensures seats { core.new.seats ≡ core.old.seats }
    ensures grew { Grew (core_desk core.old seat) (core_desk core.new seat) }
    ensures others { Others seat (story core.old) (story core.new) }
{
    match done {
        Some(done) => apply(alloc, core, seat, done),
        None => Ok(None),
    }
}

/// The seat gives up, and is over.
pub(crate) fn quit<B: Node>(core: &mut Core<B>, seat: u32) -> Next<Work<B>>
    requires seat { seat < core.old.seats }
    ensures takes { Takes B.state result (core_desk core.new seat) }
    ensures gave_up { (core_desk core.new seat).gave_up ≡ true }
    ensures seats { core.new.seats ≡ core.old.seats }
    ensures grew { Grew (core_desk core.old seat) (core_desk core.new seat) }
    ensures others { Others seat (story core.old) (story core.new) }
{
    core.give_up(seat);
    Next::End
}

/// What is to be done next by a seat that has nothing, in a core that hasn't ended: the item of the least number that may be
/// taken, or nothing. Where memory runs out the seat gives up.
pub(crate) fn take_next<B: Node>(alloc: Global, core: &mut Core<B>, seat: u32) -> Next<Work<B>>
    requires seat { seat < core.old.seats }
    requires running { has_ended (story core.old) ≡ false }
    requires stays { (core_desk core.old seat).gave_up ≡ false }
    requires idle { (core_desk core.old seat).job ≡ Idle }
    ensures takes { Takes B.state result (core_desk core.new seat) }
    ensures nothing { IfNothing result (core.new ≡ core.old) }
    ensures gave_up { IfEnd result ((core_desk core.new seat).gave_up ≡ true) }
    ensures grew { Grew (core_desk core.old seat) (core_desk core.new seat) }
    ensures others { Others seat (story core.old) (story core.new) }
{
    match core.take(alloc, seat) {
        Ok(Some(taken)) => {
            know_work(core, seat);
            Next::Taken(taken)
        }
        Ok(None) => Next::Nothing,
        Err(NoMemory) => quit(core, seat),
    }
}

// The same in any core: a seat that finds the core failed gives up too, and where it was closed the seat is over.
fn go_on<B: Node>(alloc: Global, core: &mut Core<B>, seat: u32) -> Next<Work<B>>
    requires seat { seat < core.old.seats }
    requires stays { (core_desk core.old seat).gave_up ≡ false }
    requires idle { (core_desk core.old seat).job ≡ Idle }
    ensures takes { Takes B.state result (core_desk core.new seat) }
    ensures grew { Grew (core_desk core.old seat) (core_desk core.new seat) }
    ensures others { Others seat (story core.old) (story core.new) }
{
    if core.failed() {
        return quit(core, seat);
    }
    if core.ended() {
        return Next::End;
    }
    take_next(alloc, core, seat)
}

/// One holding of a worker: what it brings is applied, and then it takes what is next.
pub(crate) fn serve<B: Node>(
    alloc: Global,
    core: &mut Core<B>,
    seat: u32,
    done: Option<Done<B>>,
) -> (Next<Work<B>>, Leftover<B>)
    requires seat { seat < core.old.seats }
    requires stays { (core_desk core.old seat).gave_up ≡ false }
    requires brings { Brings B.state done (core_desk core.old seat) }
    ensures takes { Takes B.state result.0 (core_desk core.new seat) }
    ensures grew { Grew (core_desk core.old seat) (core_desk core.new seat) }
    ensures others { Others seat (story core.old) (story core.new) }
{
    let left = hand_in(alloc, core, seat, done);
    if left.is_err() {
        return (Next::End, left);
    }
    (go_on(alloc, core, seat), left)
}

/// Puts back what the seat couldn't work on, and the seat gives up. In a core that has ended nothing is put back, and what was
/// taken comes back.
pub(crate) fn give_back<B: Node>(core: &mut Core<B>, seat: u32, taken: Work<B>) -> Option<Work<B>>
    requires seat { seat < core.old.seats }
    requires own { job_with B.state taken ≡ (core_desk core.old seat).job }
    ensures back { IfNone result (story core.new ≡ given_up_by (with_event (story core.old) (Back (item_of taken).id)) seat) }
    ensures kept { IfSome result (λ it. has_ended (story core.old) ≡ true) }
    ensures gave_up { (core_desk core.new seat).gave_up ≡ true }
    ensures grew { Grew (core_desk core.old seat) (core_desk core.new seat) }
    ensures others { Others seat (story core.old) (story core.new) }
{
    if core.ended() {
        core.give_up(seat);
        return Some(taken);
    }
    core.back(seat, taken);
    core.give_up(seat);
    None
}
