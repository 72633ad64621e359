// The driver: the seat 0, which feeds the inputs, takes and applies as a worker does, and closes the core.
ghost use Rattle.std.specs.Prelude.{◌≡◌, ◌<◌, false};
ghost use Rattle.ng_turn.specs.Words.{seat_of};
ghost use Rattle.ng_workers.specs.Desks.{IsOver, IsReady};
ghost use Rattle.ng_workers.specs.Driving.{DroveOn, IsOpenFor, MayFeed};
ghost use Rattle.ng_workers.specs.Hands.{Brings, Drove, Takes};
ghost use Rattle.ng_workers.specs.Passes.{DroveStep, IsOf, Leaves, desk, pass_of};

use crate::attending::attend;
use crate::feeder::{Feeder, Stage};
use crate::feeding::lead;
use crate::next::Next;
use crate::pool::Unfed;
use crate::step::Step;
use ng_core::Core;
use ng_core_state::{Done, Work};
use ng_machine::Input;
use ng_outside::Gate;
use ng_plan::node::Node;
use ng_turn::{Backoff, Pass, Turn};
use std::alloc::Global;
use std::sync::Wait;

// One holding: what the seat brings is applied, what may be fed is fed, and the seat takes what is next or closes the core. A
// node that goes is dropped after it.
fn hold<R: Wait, B: Node>(
    rt: &R,
    alloc: Global,
    turn: &Turn<Core<B>>,
    pass: Pass<Core<B>>,
    feeder: &mut Feeder,
    done: Option<Done<B>>,
) -> (Pass<Core<B>>, Next<Work<B>>)
    requires turn { IsOf turn.now pass }
    requires seat { seat_of pass ≡ 0 }
    requires fits { MayFeed feeder.old (desk pass) }
    requires stays { (desk pass).gave_up ≡ false }
    requires brings { Brings B.state done (desk pass) }
    ensures turn { IsOf turn.now result.0 }
    ensures seat { seat_of result.0 ≡ 0 }
    ensures takes { Takes B.state result.1 (desk result.0) }
    ensures drove { Drove result.1 (desk pass) (desk result.0) feeder.old.unfed feeder.new }
{
    let mut held = turn.take(rt, pass);
    let (next, left) = lead(alloc, held.value_mut(), feeder, done);
    let pass = turn.put(rt, held);
    drop(left);
    (pass, next)
}

// One holding, and the work on what was taken in it. Where there is nothing to do other threads may run, the longer the more
// often there was nothing since the last work.
fn step<R: Wait, B: Node, G: Gate>(
    rt: &R,
    alloc: Global,
    turn: &Turn<Core<B>>,
    pass: Pass<Core<B>>,
    feeder: &mut Feeder,
    gate: &G,
    done: Option<Done<B>>,
    idle: &mut Backoff,
) -> Step<Pass<Core<B>>, Option<Done<B>>>
    requires turn { IsOf turn.now pass }
    requires seat { seat_of pass ≡ 0 }
    requires some { 0 < (desk pass).seats }
    requires fits { MayFeed feeder.old (desk pass) }
    requires stays { (desk pass).gave_up ≡ false }
    requires brings { Brings B.state done (desk pass) }
    ensures turn { IsOf turn.now (pass_of result) }
    ensures seat { seat_of (pass_of result) ≡ 0 }
    ensures leaves { Leaves B.state result }
    ensures drove { DroveStep (desk pass) feeder.old.unfed feeder.new result }
{
    let (pass, next) = hold(rt, alloc, turn, pass, feeder, done);
    match next {
        Next::Taken(taken) => {
            *idle = Backoff::new();
            attend(rt, alloc, turn, pass, gate, taken)
        }
        Next::Nothing => {
            idle.pause(rt);
            Step::Goes(pass, None)
        }
        Next::End => Step::Ends(pass),
    }
}

/// Feeds the inputs in order, as the seat 0, and takes items, works on them and applies them as a worker does, until nothing is
/// left or the limit of applied items is reached, and closes the core; or until memory runs out. In each holding every input
/// that may be fed is fed before an item is taken; but the first packet or tick is fed only where nothing is pending, so that
/// the set-up is done before the traffic begins. Between a take and its work the gate is passed. Waits for its turns, and
/// while there is nothing to do.
///
/// The pass that comes back is of the seat 0: some of the inputs were fed in order, and the core is closed with the number of
/// those that are left, none or by a Stop; or the seat gave up. Its own events only grew, with no Back unless the seat gave up.
pub fn drive<R: Wait, B: Node, G: Gate>(
    rt: &R,
    alloc: Global,
    turn: &Turn<Core<B>>,
    mut pass: Pass<Core<B>>,
    inputs: Vec<Input>,
    gate: &G,
) -> Pass<Core<B>>
    requires turn { IsOf turn.now pass }
    requires seat { seat_of pass ≡ 0 }
    requires ready { IsReady 0 (desk pass) }
    requires fits { IsOpenFor inputs.items (desk pass) }
    ensures turn { IsOf turn.now result }
    ensures seat { seat_of result ≡ 0 }
    ensures drove { DroveOn (desk pass) (desk result) inputs.items }
    ensures over { IsOver (desk result) }
{
    let unfed = Unfed::new(inputs);
    let mut feeder = Feeder {
        unfed,
        stage: Stage::SetUp,
    };
    let mut done = None;
    let mut idle = Backoff::new();
    for _ in rt.forever() {
        match step(rt, alloc, turn, pass, &mut feeder, gate, done, &mut idle) {
            Step::Goes(next, brings) => {
                pass = next;
                done = brings;
            }
            Step::Ends(last) => return last,
        }
    }
    unreachable!()
}
