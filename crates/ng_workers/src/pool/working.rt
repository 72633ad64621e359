// The work on what a seat took.
ghost use Rattle.std.specs.Prelude.{◌≡◌, IfOk, IfErr};
ghost use Rattle.std.specs.Arc.{arc_value};
ghost use Rattle.ng_machine.specs.Desk.{Reads, Writes};
ghost use Rattle.ng_workers.specs.pool.Workable.{IsWorkable};
ghost use Rattle.ng_machine.specs.story.Work.{IsDone};
ghost use Rattle.ng_core_state.specs.Handed.{handed_with, job_with};

use ng_base::NoMemory;
use ng_core_state::service::evaluate;
use ng_core_state::{Done, Work};
use ng_plan::Plan;
use ng_plan::node::Node;
use ng_queue::BoxedItem;
use std::alloc::Global;
use std::sync::Arc;

// Works on a packet by a plan.
fn read<B: Node>(alloc: Global, item: BoxedItem, plan: Arc<Plan>) -> Result<Done<B>, Work<B>>
    requires { IsWorkable (Reads item (arc_value plan)) }
    ensures done { IfOk result (λ done. IsDone (Reads item (arc_value plan)) (handed_with B.state done)) }
    ensures back { IfErr result (λ back. job_with B.state back ≡ Reads item (arc_value plan)) }
{
    match evaluate(alloc, &item, &plan) {
        Ok(outcome) => Ok(Done::Read { item, outcome }),
        Err(NoMemory) => Err(Work::Read { item, plan }),
    }
}

// Works on a writer with its node.
fn write<B: Node>(alloc: Global, item: BoxedItem, node: B) -> Result<Done<B>, Work<B>>
    requires { IsWorkable (Writes item (B.state node)) }
    ensures done { IfOk result (λ done. IsDone (Writes item (B.state node)) (handed_with B.state done)) }
    ensures back { IfErr result (λ back. job_with B.state back ≡ Writes item (B.state node)) }
{
    let mut node = node;
    match node.write(alloc, &item.body) {
        Ok(outcome) => Ok(Done::Write {
            item,
            node,
            outcome,
        }),
        Err(NoMemory) => Err(Work::Write { item, node }),
    }
}

/// Works on what was taken: what a packet's plan makes of it, or what the node does with a writer, which has worked on it then.
/// An item that needs no work outside is handed on. Nothing of the core is read or changed.
///
/// # Errors
/// The work, unchanged, where memory ran out, and for nothing else.
pub fn work<B: Node>(alloc: Global, work: Work<B>) -> Result<Done<B>, Work<B>>
    requires { IsWorkable (job_with B.state work) }
    ensures done { IfOk result (λ done. IsDone (job_with B.state work) (handed_with B.state done)) }
    ensures back { IfErr result (λ back. job_with B.state back ≡ job_with B.state work) }
{
    match work {
        Work::Read { item, plan } => read(alloc, item, plan),
        Work::Write { item, node } => write(alloc, item, node),
        Work::Inside { item } => Ok(Done::Inside { item }),
    }
}
