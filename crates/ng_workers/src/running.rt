// A run by a driver and workers, each in a thread.
ghost use Rattle.std.specs.Prelude.{◌≡◌, ◌<◌, [], false, vec_len, IfOk, IfErr};
ghost use Rattle.std.specs.Thread.{IsSend, IsSync};
ghost use Rattle.std.specs.Vec.{vec_capacity};
ghost use Rattle.ng_core.specs.CoreStory.{CoreStory, story};
ghost use Rattle.ng_machine.specs.story.Story.{AreFitFor, has_ended, run_state_of};
ghost use Rattle.ng_turn.specs.Words.{seat_of};
ghost use Rattle.ng_workers.specs.Desks.{IsOver, IsReady};
ghost use Rattle.ng_workers.specs.Ending.{RanPartly, RanToEnd};
ghost use Rattle.ng_workers.specs.Passes.{AreBackFrom, AreDesksOf, AreReady, Grows, IsOf, desk};

use crate::driving::drive;
use crate::working::worker;
use ng_core::Core;
use ng_machine::Input;
use ng_outside::Gate;
use ng_plan::node::Node;
use ng_turn::{Pass, Turn};
use std::alloc::Global;
use std::sync::Wait;
use std::thread;
use std::thread::Threads;

// Works with the last pass in a thread of its own, and goes on in this one. Where the thread can't be started, the worker runs
// once the rest is back.
fn beside<R: Threads + Wait + Sync, B: Node, G: Gate + Sync, F: FnOnce() -> A, A>(
    rt: &R,
    alloc: Global,
    turn: &Turn<Core<B>>,
    last: Pass<Core<B>>,
    gate: &G,
    go_on: F,
) -> (Pass<Core<B>>, A)
    requires turn { IsOf turn.now last }
    requires ready { IsReady (seat_of last) (desk last) }
    requires rest { F.pre go_on }
    ensures turn { IsOf turn.now result.0 }
    ensures grows { Grows last result.0 }
    ensures over { IsOver (desk result.0) }
    ensures rest { F.post go_on result.1 }
{
    thread::join(
        rt,
        move || -> Pass<Core<B>>
            requires { IsOf turn.now last × IsReady (seat_of last) (desk last) }
            ensures { IsOf turn.entry.now result × Grows last result × IsOver (desk result) }
        { worker(rt, alloc, turn, last, gate) },
        go_on,
    )
}

// Drives with the first pass in this thread, and works with each other one in a thread of its own. Where a thread can't be
// started, its worker runs once the driver is back.
fn spread<R: Threads + Wait + Sync, B: Node + Send, G: Gate + Sync>(
    rt: &R,
    alloc: Global,
    turn: &Turn<Core<B>>,
    mut passes: Vec<Pass<Core<B>>>,
    inputs: Vec<Input>,
    gate: &G,
) -> Vec<Pass<Core<B>>>
    requires ready { AreReady turn.now inputs.items passes.items }
    requires some { 0 < vec_len passes }
    ensures back { (core : CoreStory) → AreDesksOf core passes.items → AreBackFrom turn.now core inputs.items result.items }
    ensures len { vec_len result ≡ vec_len passes }
    ensures capacity { vec_capacity result ≡ vec_capacity passes }
{
    let Some(last) = passes.pop() else {
        unreachable!()
    };
    if passes.is_empty() {
        passes.push_reserved(drive(rt, alloc, turn, last, inputs, gate));
        return passes;
    }
    let (last, mut passes) = beside(
        rt,
        alloc,
        turn,
        last,
        gate,
        move || -> Vec<Pass<Core<B>>>
            requires { IsSync R.row × IsSend B.row × IsSync G.row × AreReady turn.now inputs.items passes.items × (0 < vec_len passes) }
            ensures { ((core : CoreStory) → AreDesksOf core passes.items → AreBackFrom turn.entry.now core inputs.items result.items)
                × (vec_len result ≡ vec_len passes) × (vec_capacity result ≡ vec_capacity passes) }
        { spread(rt, alloc, turn, passes, inputs, gate) },
    );
    passes.push_reserved(last);
    passes
}

/// Runs the inputs from where a core stands to its end, by as many seats as it has: the seat 0 in this thread, which feeds and
/// closes, and each other one in a thread of its own, which takes and applies. A thread that can't be started is made up for by
/// this one. Nothing may be taken when it is called, and `seats` is the number that the core was made with. Waits for the
/// threads.
///
/// # Errors
/// The core where memory ran out, of a seat or for the turn, and for nothing else. What was fed and done before stands.
pub fn run_workers<R: Threads + Wait + Sync, B: Node, G: Gate + Sync>(
    rt: &R,
    alloc: Global,
    core: Core<B>,
    seats: u32,
    inputs: Vec<Input>,
    gate: &G,
) -> Result<Core<B>, Core<B>>
    requires seats { seats ≡ core.seats }
    requires running { has_ended (story core) ≡ false }
    requires idle { (run_state_of (story core)).taken ≡ [] }
    requires fits { AreFitFor (story core) inputs.items }
    ensures ran { IfOk result (λ end. RanToEnd (story core) inputs.items (story end)) }
    ensures partly { IfErr result (λ end. RanPartly (story core) inputs.items (story end)) }
{
    core.journal();
    match Turn::new(rt, alloc, core, seats) {
        Ok((turn, passes)) => {
            let passes = spread(rt, alloc, &turn, passes, inputs, gate);
            let core = turn.end(rt, passes);
            if core.failed() {
                return Err(core);
            }
            Ok(core)
        }
        Err(core) => Err(core),
    }
}
