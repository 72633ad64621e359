// The work on what a seat took, while the core is put back.
ghost use Rattle.std.specs.Prelude.{◌≡◌, ◌<◌, false, true};
ghost use Rattle.ng_workers.specs.pool.Workable.{IsWorkable};
ghost use Rattle.ng_turn.specs.Words.{seat_of};
ghost use Rattle.ng_workers.specs.Passes.{Grows, IfEnds, IsOf, Leaves, desk, pass_of};
ghost use Rattle.ng_core_state.specs.Handed.{job_with};

use crate::holding::give_back;
use crate::pool::work;
use crate::step::Step;
use ng_core::Core;
use ng_core_state::{Done, Work};
use ng_outside::Gate;
use ng_plan::node::Node;
use ng_turn::{Pass, Turn};
use std::alloc::Global;
use std::sync::Wait;

// Puts back what could not be worked on, in a holding of its own, and gives up.
fn return_work<R: Wait, B: Node>(
    rt: &R,
    turn: &Turn<Core<B>>,
    pass: Pass<Core<B>>,
    taken: Work<B>,
) -> Pass<Core<B>>
    requires turn { IsOf turn.now pass }
    requires seat { seat_of pass < (desk pass).seats }
    requires own { job_with B.state taken ≡ (desk pass).job }
    ensures turn { IsOf turn.now result }
    ensures grows { Grows pass result }
    ensures gave_up { (desk result).gave_up ≡ true }
{
    let seat = pass.seat();
    let mut held = turn.take(rt, pass);
    let left = give_back(held.value_mut(), seat, taken);
    let pass = turn.put(rt, held);
    drop(left);
    pass
}

/// Passes the gate and works on what the seat took, while other seats may hold the core. Where memory runs out the item is put
/// back and the seat gives up.
pub(crate) fn attend<R: Wait, B: Node, G: Gate>(
    rt: &R,
    alloc: Global,
    turn: &Turn<Core<B>>,
    pass: Pass<Core<B>>,
    gate: &G,
    taken: Work<B>,
) -> Step<Pass<Core<B>>, Option<Done<B>>>
    requires turn { IsOf turn.now pass }
    requires seat { seat_of pass < (desk pass).seats }
    requires stays { (desk pass).gave_up ≡ false }
    requires job { (desk pass).job ≡ job_with B.state taken }
    requires workable { IsWorkable (job_with B.state taken) }
    ensures turn { IsOf turn.now (pass_of result) }
    ensures grows { Grows pass (pass_of result) }
    ensures leaves { Leaves B.state result }
    ensures gave_up { IfEnds result (λ last. (desk last).gave_up ≡ true) }
{
    gate.pass(taken.node(), taken.id());
    match work(alloc, taken) {
        Ok(done) => Step::Goes(pass, Some(done)),
        Err(taken) => Step::Ends(return_work(rt, turn, pass, taken)),
    }
}
