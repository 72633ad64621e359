// A worker: a seat that takes and applies.
ghost use Rattle.std.specs.Prelude.{◌≡◌, ◌<◌, false};
ghost use Rattle.ng_turn.specs.Words.{seat_of};
ghost use Rattle.ng_workers.specs.Desks.{IsOver, IsReady};
ghost use Rattle.ng_workers.specs.Hands.{Brings, Takes};
ghost use Rattle.ng_workers.specs.Passes.{Grows, IsOf, Leaves, desk, pass_of};

use crate::attending::attend;
use crate::holding::serve;
use crate::next::Next;
use crate::step::Step;
use ng_core::Core;
use ng_core_state::{Done, Work};
use ng_outside::Gate;
use ng_plan::node::Node;
use ng_turn::{Backoff, Pass, Turn};
use std::alloc::Global;
use std::sync::Wait;

// One holding: what the seat brings is applied, and it takes what is next. A node that goes is dropped after it.
fn hold<R: Wait, B: Node>(
    rt: &R,
    alloc: Global,
    turn: &Turn<Core<B>>,
    pass: Pass<Core<B>>,
    done: Option<Done<B>>,
) -> (Pass<Core<B>>, Next<Work<B>>)
    requires turn { IsOf turn.now pass }
    requires seat { seat_of pass < (desk pass).seats }
    requires stays { (desk pass).gave_up ≡ false }
    requires brings { Brings B.state done (desk pass) }
    ensures turn { IsOf turn.now result.0 }
    ensures grows { Grows pass result.0 }
    ensures takes { Takes B.state result.1 (desk result.0) }
{
    let seat = pass.seat();
    let mut held = turn.take(rt, pass);
    let (next, left) = serve(alloc, held.value_mut(), seat, done);
    let pass = turn.put(rt, held);
    drop(left);
    (pass, next)
}

// One holding, and the work on what was taken in it. A seat that finds nothing lets other threads run, the longer the more
// often it found nothing since its last work.
fn step<R: Wait, B: Node, G: Gate>(
    rt: &R,
    alloc: Global,
    turn: &Turn<Core<B>>,
    pass: Pass<Core<B>>,
    gate: &G,
    done: Option<Done<B>>,
    idle: &mut Backoff,
) -> Step<Pass<Core<B>>, Option<Done<B>>>
    requires turn { IsOf turn.now pass }
    requires seat { seat_of pass < (desk pass).seats }
    requires stays { (desk pass).gave_up ≡ false }
    requires brings { Brings B.state done (desk pass) }
    ensures turn { IsOf turn.now (pass_of result) }
    ensures grows { Grows pass (pass_of result) }
    ensures leaves { Leaves B.state result }
{
    let (pass, next) = hold(rt, alloc, turn, pass, done);
    match next {
        Next::Taken(taken) => {
            *idle = Backoff::new();
            attend(rt, alloc, turn, pass, gate, taken)
        }
        Next::Nothing => {
            idle.pause(rt);
            Step::Goes(pass, None)
        }
        Next::End => Step::Ends(pass),
    }
}

/// Takes items, works on them and applies them as the seat of the pass, until the core has ended or memory runs out. Between a
/// take and its work the gate is passed. Waits for its turns, and while there is nothing to take.
///
/// The pass that comes back is of the same seat: its own events only grew, with no Back unless the seat gave up, and it has
/// nothing in hand, or gave up.
pub fn worker<R: Wait, B: Node, G: Gate>(
    rt: &R,
    alloc: Global,
    turn: &Turn<Core<B>>,
    mut pass: Pass<Core<B>>,
    gate: &G,
) -> Pass<Core<B>>
    requires turn { IsOf turn.now pass }
    requires ready { IsReady (seat_of pass) (desk pass) }
    ensures turn { IsOf turn.now result }
    ensures grows { Grows pass result }
    ensures over { IsOver (desk result) }
{
    let mut done = None;
    let mut idle = Backoff::new();
    for _ in rt.forever() {
        match step(rt, alloc, turn, pass, gate, done, &mut idle) {
            Step::Goes(next, brings) => {
                pass = next;
                done = brings;
            }
            Step::Ends(last) => return last,
        }
    }
    unreachable!()
}
