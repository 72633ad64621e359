// The packet that is next is worked on and applied at once.
ghost use Rattle.std.specs.Prelude.{◌≡◌, true, Some, IfNone, IfOk, IfSome, OnErr, OnOk};
ghost use Rattle.ng_machine.specs.declared.item.Item.{Item as TheItem};
ghost use Rattle.ng_machine.specs.declared.plan.Plan.{Plan as ThePlan};
ghost use Rattle.ng_machine.specs.Body.{is_frame};
ghost use Rattle.ng_machine.specs.Desk.{Reads, job_of};
ghost use Rattle.ng_machine.specs.LowRun.{IsLow};
ghost use Rattle.ng_machine.specs.Outcome.{nothing};
ghost use Rattle.ng_machine.specs.Run.{RunState};
ghost use Rattle.ng_machine.specs.World.{NodeRecord, node_at};
ghost use Rattle.ng_queue.specs.pending.Holds.{with_taken};
ghost use Rattle.ng_queue.specs.Queue.{head};
ghost use Rattle.ng_queue.specs.Queues.{IsLeast, list_at};
ghost use Rattle.ng_core_state.specs.step.Applied.{applied_from};
ghost use Rattle.ng_machine.specs.story.Story.{IsNext};
ghost use Rattle.ng_machine.specs.story.Work.{IsEvaluated};
ghost use Rattle.ng_core_state.specs.Stands.{Stands};
ghost use Rattle.ng_core_state.specs.service.Work.{IsForPlanAt, IsReadAt, IsServed, IsWorkedOn};

use crate::State;
use crate::service::conclusion::{is_short, target};
use crate::service::emptying::clear;
use crate::service::parts::{dequeue, reuse};
use crate::service::reading::bring_about;
use crate::service::room::make_room;
use ng_base::{ItemId, NoMemory};
use ng_machine::{Body, Item, Outcome};
use ng_plan::node::Node;
use ng_plan::{Plan, eval_into, nothing};
use std::alloc::Global;

/// What a plan makes of an item that is a packet, put into an outcome that has nothing yet.
///
/// # Errors
/// `NoMemory` where memory ran out, and for nothing else; the outcome may have a part of it then.
fn evaluate_into(
    alloc: Global,
    item: &Item,
    plan: &Plan,
    outcome: &mut Outcome,
) -> Result<(), NoMemory>
    requires frame { is_frame item.now.body ≡ true }
    requires blank { outcome.old ≡ nothing }
    ensures { OnOk result (IsEvaluated plan.now item.now.body outcome.new) }
{
    match &item.body {
        Body::Frame {
            door,
            link: _,
            packet,
        } => eval_into(alloc, plan, door, packet, outcome),
        _ => unreachable!(),
    }
}

/// What a plan makes of an item that is a packet.
///
/// # Errors
/// `NoMemory` where memory ran out, and for nothing else.
pub fn evaluate(alloc: Global, item: &Item, plan: &Plan) -> Result<Outcome, NoMemory>
    requires { is_frame item.now.body ≡ true }
    ensures { IfOk result (λ outcome. IsEvaluated plan.now item.now.body outcome) }
{
    let mut outcome = nothing(alloc);
    evaluate_into(alloc, item, plan, &mut outcome)?;
    Ok(outcome)
}

// The packet at the head of the queue that is the least is applied, with what its plan made of it, of which nothing is left.
fn serve_read<B: Node>(
    alloc: Global,
    state: &mut State<B>,
    at: usize,
    seat: u32,
    outcome: &mut Outcome,
) -> Result<(), NoMemory>
    requires least { IsLeast state.old.pending.queues.lists at }
    requires work { (a : RunState) × (item : TheItem) × (node : NodeRecord) × Stands state.old a × (head (list_at state.old.pending.queues.lists at) ≡ Some item)
        × (node_at a.world item.to ≡ Some node) × IsLow a.world × IsReadAt item node outcome.old }
    ensures served { OnOk result ((a : RunState) (item : TheItem) (node : NodeRecord) → Stands state.old a
        → head (list_at state.old.pending.queues.lists at) ≡ Some item → node_at a.world item.to ≡ Some node → IsLow a.world → IsReadAt item node outcome.old
        → Stands state.new (applied_from (with_taken a item.id.0 seat) item)) }
    ensures blank { OnOk result (outcome.new ≡ nothing) }
    ensures err { OnErr result ((a : RunState) → Stands state.old a → Stands state.new a) }
{
    if !is_short(&outcome.answer) {
        return Err(NoMemory);
    }
    let head = state.pending.head(at);
    let to = head.to;
    let target = target(head, outcome);
    make_room(state, to, outcome, target)?;
    let item = dequeue(state, at, seat);
    bring_about(alloc, state, &item, outcome);
    reuse(state, item);
    clear(alloc, outcome);
    Ok(())
}

// What the plan that its node keeps makes of the packet at the head of that queue, put into an outcome that has nothing yet: the
// packet's number; none where no plan was made since the node last changed.
fn work_by_kept_plan<B: Node>(
    alloc: Global,
    state: &State<B>,
    at: usize,
    outcome: &mut Outcome,
) -> Result<Option<ItemId>, NoMemory>
    requires standing { (a : RunState) × Stands state.now a }
    requires least { IsLeast state.now.pending.queues.lists at }
    requires job { IsForPlanAt state.now at }
    requires blank { outcome.old ≡ nothing }
    ensures work { IfOk result (λ o. IfSome o (λ id. (a : RunState) → Stands state.now a → IsWorkedOn a state.now at id outcome.new)) }
    ensures same { IfOk result (λ o. IfNone o (outcome.new ≡ outcome.old)) }
{
    let head = state.pending.head(at);
    let Some(plan) = state.graph.peek_plan(head.to) else {
        return Ok(None);
    };
    evaluate_into(alloc, head, plan, outcome)?;
    Ok(Some(head.id))
}

// What its node's plan makes of the packet at the head of that queue, put into an outcome that has nothing yet: the packet's
// number.
fn work_on<B: Node>(
    alloc: Global,
    state: &mut State<B>,
    at: usize,
    outcome: &mut Outcome,
) -> Result<ItemId, NoMemory>
    requires standing { (a : RunState) × Stands state.old a }
    requires least { IsLeast state.old.pending.queues.lists at }
    requires job { IsForPlanAt state.old at }
    requires blank { outcome.old ≡ nothing }
    ensures work { IfOk result (λ id. (a : RunState) → Stands state.old a → IsWorkedOn a state.old at id outcome.new) }
    ensures same { state.new ≡ state.old }
{
    if let Some(id) = work_by_kept_plan(alloc, state, at, outcome)? {
        return Ok(id);
    }
    let plan = state.plan_at(alloc, at)?;
    let head = state.pending.head(at);
    evaluate_into(alloc, head, &plan, outcome)?;
    Ok(head.id)
}

/// Takes the item that is next, works on it and applies it at once, where it is a packet that a plan works on: its number. What
/// is kept stands then for the run in which the seat took it and handed in what its plan made of it, but the item was never out.
/// What the plan makes of it goes through `outcome`, which has nothing before and after. The plan is made where none was since the
/// node last changed.
///
/// # Errors
/// `NoMemory` where memory ran out, or the plan is shared more often than can be counted; nothing but room changed, and the
/// outcome may have anything.
pub fn serve<B: Node>(
    alloc: Global,
    state: &mut State<B>,
    seat: u32,
    outcome: &mut Outcome,
) -> Result<Option<ItemId>, NoMemory>
    requires work { (a : RunState) × Stands state.old a × IsLow a.world }
    requires blank { outcome.old ≡ nothing }
    ensures served { IfOk result (λ o. IfSome o (λ id. (a : RunState) → Stands state.old a → IsLow a.world → IsServed a state.new seat id)) }
    ensures none { IfOk result (λ o. IfNone o ((a : RunState) (item : TheItem) (plan : ThePlan) → Stands state.old a
        → IsNext a item → job_of a.world item ≡ Reads item plan → ⊥)) }
    ensures same { IfOk result (λ o. IfNone o (state.new ≡ state.old)) }
    ensures blank { OnOk result (outcome.new ≡ nothing) }
    ensures err { OnErr result ((a : RunState) → Stands state.old a → Stands state.new a) }
{
    let Some(at) = state.next_read() else {
        return Ok(None);
    };
    let id = work_on(alloc, state, at, outcome)?;
    serve_read(alloc, state, at, seat, outcome)?;
    Ok(Some(id))
}
