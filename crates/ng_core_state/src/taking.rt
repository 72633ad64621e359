// A seat takes an item, with what it is worked on with.
ghost use Rattle.std.specs.Prelude.{◌≡◌, ℕ, ◌+◌, ◌<◌, ◌^◌, true, false, is_some, IsSome, None, Some, IfOk, OnErr, IfSome, IfNone};
ghost use Rattle.std.specs.Arc.{arc_value};
ghost use Rattle.std.specs.Option.{option_map};
ghost use Rattle.ng_machine.specs.declared.item.Item.{Item as TheItem};
ghost use Rattle.ng_machine.specs.Body.{is_writer};
ghost use Rattle.ng_machine.specs.declared.plan.Plan.{Plan as ThePlan};
ghost use Rattle.ng_machine.specs.Desk.{Job, Reads, job_of, job_at};
ghost use Rattle.ng_machine.specs.Orderly.{MayTake};
ghost use Rattle.ng_machine.specs.Run.{RunState};
ghost use Rattle.ng_machine.specs.State.{way_of};
ghost use Rattle.ng_machine.specs.World.{NodeRecord, kind_at, node_at, node_in, state_of};
ghost use Rattle.ng_queue.specs.pending.Holds.{with_taken};
ghost use Rattle.ng_queue.specs.Queue.{head};
ghost use Rattle.ng_queue.specs.Queues.{IsLeast, list_at};
ghost use Rattle.ng_machine.specs.story.Story.{IsNext};
ghost use Rattle.ng_topology.specs.Topology.{IsAtHome, linked_hook_at};
ghost use Rattle.ng_machine.specs.Effect.{lacks_link, class_of};
ghost use Rattle.ng_machine.specs.Desk.{is_of_kind};
ghost use Rattle.ng_core_state.specs.Handed.{IsForPlan, IsJobBy, item_of, job_with};
ghost use Rattle.ng_core_state.specs.Lent.{WriterOut};
ghost use Rattle.ng_core_state.specs.Stands.{IsStanding, Stands};

use crate::handed::Tool;
use crate::{State, Work};
use ng_base::{Kind, LinkId, Name, NoMemory, NodeId};
use ng_machine::{Body, Door, Item};
use ng_message::{ANSWER_FLAG, GENERIC_COOKIE, Msg};
use ng_plan::Plan;
use ng_plan::node::Node;
use ng_queue::BoxedItem;
use ng_topology::Graph;
use std::alloc::Global;
use std::sync::Arc;

// The cookie of the first type's own messages; the others follow in the order of the types.
const FIRST_COOKIE: u32 = 0x4e47_0001;

// Whether the hook of a packet isn't there or has another link.
fn lacks_link<B: Node>(graph: &Graph<B>, at: NodeId, hook: &Name, link: Option<LinkId>) -> bool
    ensures { (node : NodeRecord) → node_in graph.now.nodes at ≡ Some node → result ≡ lacks_link node hook.now link }
{
    match link {
        Some(link) => !graph.has_link(at, hook, link),
        None => true,
    }
}

// Whether a message is one of the cookie of the node's type.
fn is_of_kind(kind: Kind, msg: &Msg) -> bool
    ensures { result ≡ is_of_kind (class_of kind msg.now) }
{
    if msg.header.flags % 2 == ANSWER_FLAG && kind.number() == Kind::Socket.number() {
        return false;
    }
    msg.header.typecookie != GENERIC_COOKIE
        && msg.header.typecookie == FIRST_COOKIE + u32::from(kind.number())
}

// Whether a message is one of the type of the node of that number.
fn is_own_message<B: Node>(graph: &Graph<B>, at: NodeId, msg: &Msg) -> bool
    ensures { (node : NodeRecord) → node_in graph.now.nodes at ≡ Some node → result ≡ is_of_kind (class_of (kind_at node) msg.now) }
{
    match graph.kind(at) {
        Some(kind) => is_of_kind(kind, msg),
        None => false,
    }
}

// What the item is worked on with at its node.
fn tool_for<B: Node>(graph: &Graph<B>, item: &Item) -> Tool
    ensures { (node : NodeRecord) → node_in graph.now.nodes item.now.to ≡ Some node
        → item.now.writer ≡ is_writer (kind_at node) item.now.body → IsJobBy result item.now node (job_at item.now (Some node)) }
{
    match &item.body {
        Body::Frame {
            door: Door::Hook(hook),
            link,
            packet: _,
        } if lacks_link(graph, item.to, hook, *link) => Tool::Nothing,
        Body::Frame { .. } if item.writer => Tool::Node,
        Body::Frame { .. } => Tool::Plan,
        Body::Msg(msg) if item.writer && is_own_message(graph, item.to, msg) => Tool::Node,
        Body::Learn { hook, link, .. } if graph.has_link(item.to, hook, *link) => Tool::Node,
        Body::Tick(_) => Tool::Node,
        _ => Tool::Nothing,
    }
}

impl<B: Node> State<B> {
    // The plan of the node of the least item that may be taken, if that has one.
    fn share_plan(&self, alloc: Global, at: usize) -> Result<Option<Arc<Plan>>, NoMemory>
        requires standing { IsStanding self.now }
        requires least { IsLeast self.now.pending.queues.lists at }
        ensures { IfOk result (λ plan. (item : TheItem) (node : NodeRecord) → head (list_at self.now.pending.queues.lists at) ≡ Some item
            → node_in self.now.graph.nodes item.to ≡ Some node → option_map arc_value plan ≡ way_of (state_of node)) }
    {
        let to = self.pending.head(at).to;
        self.graph.share_plan(alloc, to)
    }

    // Lends the node, which has its writer. The node keeps its plan, if it has one, meanwhile.
    fn lend(&mut self, at: NodeId, plan: Option<Arc<Plan>>) -> B
        requires home { IsAtHome self.old.graph at }
        requires planned { (node : NodeRecord) → node_in self.old.graph.nodes at ≡ Some node → option_map arc_value plan ≡ way_of (state_of node) }
        ensures stands { (a : RunState) (node : NodeRecord) → Stands self.old a → node_at a.world at ≡ Some node
            → WriterOut node a.world.pending a.taken at.0 → Stands self.new a }
        ensures node { (node : NodeRecord) → node_in self.old.graph.nodes at ≡ Some node → B.state result ≡ state_of node }
    {
        self.graph.lend(at, plan)
    }

    // Takes the item that the queue with the least has.
    fn take_at(&mut self, at: usize, _seat: u32) -> BoxedItem
        requires least { IsLeast self.old.pending.queues.lists at }
        requires standing { IsStanding self.old }
        requires few { self.old.pending.out + 1 < 2 ^ 64 }
        ensures head { head (list_at self.old.pending.queues.lists at) ≡ Some result }
        ensures next { (a : RunState) → Stands self.old a → IsNext a result × (result.to.0 ≡ at) }
        ensures after { (a : RunState) → Stands self.old a → Stands self.new (with_taken a result.id.0 _seat) }
        ensures graph { self.new.graph ≡ self.old.graph }
    {
        self.pending.take(at, _seat)
    }

    // The queue with the least item that may be taken, and what that is worked on with.
    fn pick(&self) -> Option<(usize, Tool)>
        requires { IsStanding self.now }
        ensures none { IfNone result ((a : RunState) → Stands self.now a → (item : TheItem) → MayTake a item → ⊥) }
        ensures some { IfSome result (λ x. IsLeast self.now.pending.queues.lists x.0) }
        ensures tool { IfSome result (λ x. (a : RunState) (item : TheItem) (node : NodeRecord)
            → Stands self.now a → head (list_at self.now.pending.queues.lists x.0) ≡ Some item
            → node_at a.world item.to ≡ Some node → IsJobBy x.1 item node (job_at item (Some node))) }
    {
        let Some(at) = self.pending.least() else {
            return None;
        };
        Some((at, tool_for(&self.graph, self.pending.head(at))))
    }

    /// The queue with the least item that may be taken, where that item is a packet that the plan of its node works on.
    pub fn next_read(&self) -> Option<usize>
        requires { IsStanding self.now }
        ensures least { IfSome result (λ at. IsLeast self.now.pending.queues.lists at) }
        ensures job { IfSome result (λ at. (a : RunState) (item : TheItem) (node : NodeRecord) → Stands self.now a
            → head (list_at self.now.pending.queues.lists at) ≡ Some item → node_at a.world item.to ≡ Some node → IsForPlan item node (job_of a.world item)) }
        ensures none { IfNone result ((a : RunState) (item : TheItem) (plan : ThePlan) → Stands self.now a
            → IsNext a item → job_of a.world item ≡ Reads item plan → ⊥) }
    {
        let Some((at, tool)) = self.pick() else {
            return None;
        };
        match tool {
            Tool::Plan => Some(at),
            Tool::Node | Tool::Nothing => None,
        }
    }

    /// The plan of the node of the least item that may be taken, which has one; it is shared. It is made where none was since the
    /// node last changed.
    ///
    /// # Errors
    /// `NoMemory` where memory ran out, or the plan is shared more often than can be counted.
    pub fn plan_at(&mut self, alloc: Global, at: usize) -> Result<Arc<Plan>, NoMemory>
        requires standing { IsStanding self.old }
        requires least { IsLeast self.old.pending.queues.lists at }
        requires planned { (a : RunState) (item : TheItem) (node : NodeRecord) → Stands self.old a
            → head (list_at self.old.pending.queues.lists at) ≡ Some item → node_at a.world item.to ≡ Some node → IsSome (way_of (state_of node)) }
        ensures plan { IfOk result (λ plan. (a : RunState) (item : TheItem) (node : NodeRecord) → Stands self.old a
            → head (list_at self.old.pending.queues.lists at) ≡ Some item → node_at a.world item.to ≡ Some node → way_of (state_of node) ≡ Some (arc_value plan)) }
        ensures same { self.new ≡ self.old }
    {
        let to = self.pending.head(at).to;
        self.graph.plan(alloc, to)
    }

    /// Takes the least item that may be taken, where there is one.
    ///
    /// # Errors
    /// `NoMemory` where memory ran out, or a plan is shared more often than can be counted; nothing changed.
    pub fn take(&mut self, alloc: Global, seat: u32) -> Result<Option<Work<B>>, NoMemory>
        requires standing { IsStanding self.old }
        requires few { self.old.pending.out + 1 < 2 ^ 64 }
        ensures err { OnErr result (self.new ≡ self.old) }
        ensures same { IfOk result (λ o. IfNone o (self.new ≡ self.old)) }
        ensures none { IfOk result (λ o. IfNone o ((a : RunState) → Stands self.old a → (item : TheItem) → MayTake a item → ⊥)) }
        ensures next { IfOk result (λ o. IfSome o (λ work. (a : RunState) → Stands self.old a → IsNext a (item_of work))) }
        ensures work { IfOk result (λ o. IfSome o (λ work. (a : RunState) → Stands self.old a
            → job_with B.state work ≡ job_of a.world (item_of work))) }
        ensures after { IfOk result (λ o. IfSome o (λ work. (a : RunState) → Stands self.old a
            → Stands self.new (with_taken a (item_of work).id.0 seat))) }
    {
        let Some((at, tool)) = self.pick() else {
            return Ok(None);
        };
        match tool {
            Tool::Plan => {
                let plan = self.plan_at(alloc, at)?;
                let item = self.take_at(at, seat);
                Ok(Some(Work::Read { item, plan }))
            }
            Tool::Node => {
                let plan = self.share_plan(alloc, at)?;
                let item = self.take_at(at, seat);
                let node = self.lend(item.to, plan);
                Ok(Some(Work::Write { item, node }))
            }
            Tool::Nothing => {
                let item = self.take_at(at, seat);
                Ok(Some(Work::Inside { item }))
            }
        }
    }
}
