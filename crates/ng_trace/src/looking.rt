// What is looked at in a world before an item is applied.
ghost use Rattle.std.specs.Prelude.{◌≡◌, ◌++◌, ◌∷◌, [], ◌<◌, length, None, Some, true, false, IfOk, OnOk};
ghost use Rattle.std.specs.Option.{option_map};
ghost use Rattle.ng_machine.specs.Body.{is_frame};
ghost use Rattle.ng_machine.specs.Desk.{job_of};
ghost use Rattle.ng_machine.specs.Run.{RunState};
ghost use Rattle.ng_machine.specs.declared.outcome.Outcome.{Outcome as TheOutcome};
ghost use Rattle.ng_machine.specs.World.{NodeRecord, World, node_at, node_in};
ghost use Rattle.ng_machine.specs.story.Work.{IsDone};
ghost use Rattle.ng_core_state.specs.Handed.{handed_with, item_done};
ghost use Rattle.ng_core_state.specs.Stands.{Stands};
ghost use Rattle.ng_queue.specs.Queue.{waiting_items};
ghost use Rattle.ng_queue.specs.Queues.{list_at};
ghost use Rattle.ng_trace.specs.Endings.{came_of, came_unless, door_of, is_silent, label_of, spot_of, spots};
ghost use Rattle.ng_trace.specs.Seen.{IsSeen};
ghost use Rattle.ng_trace.specs.Watch.{may_retire, spots_if};

use crate::{Came, Label, Spot};
use ng_base::{Errno, ItemId, NoMemory, NodeId};
use ng_core_state::{Done, State};
use ng_machine::{Body, Door, Item, Lost, Outcome};
use ng_plan::node::Node;
use ng_queue::Entry;
use ng_topology::Graph;
use std::alloc::Global;

/// What was seen before an item is applied.
#[derive(Drop)]
pub(crate) struct Seen {
    pub id: ItemId,
    pub to: NodeId,
    /// Where the item is, if its node is there.
    pub spot: Option<Spot>,
    /// What came of it, if it is a packet.
    pub came: Option<Came>,
    /// What waits at its node, if it may take that away.
    pub waiting: Vec<Spot>,
    pub lost: Lost,
    pub next_item: u64,
}

/// The node of that number, as it is told of: none exactly where it isn't there.
fn label_at<B: Node>(graph: &Graph<B>, id: NodeId) -> Option<Label>
    ensures { result ≡ option_map (label_of id) (node_in graph.now.nodes id) }
{
    let Some(kind) = graph.kind(id) else {
        return None;
    };
    Some(Label {
        node: id,
        name: graph.name(id).copied(),
        kind,
    })
}

// The door of a packet.
fn door_of(body: &Body) -> Option<Door>
    ensures { result ≡ door_of body.now }
{
    match body {
        Body::Frame { door, .. } => Some(*door),
        Body::Msg(_)
        | Body::Join2 { .. }
        | Body::Join3 { .. }
        | Body::Undo { .. }
        | Body::Leave { .. }
        | Body::Rebind { .. }
        | Body::Tick(_)
        | Body::Learn { .. } => None,
    }
}

/// Where an item is, if its node is there.
fn spot_at<B: Node>(graph: &Graph<B>, item: &Item) -> Option<Spot>
    ensures { result ≡ option_map (spot_of item.now) (node_in graph.now.nodes item.now.to) }
{
    let Some(label) = label_at(graph, item.to) else {
        return None;
    };
    Some(Spot {
        id: item.id,
        label,
        door: door_of(&item.body),
    })
}

// Where an item is, after others.
fn push_spot<B: Node>(graph: &Graph<B>, item: &Item, out: &mut Vec<Spot>) -> Result<(), NoMemory>
    ensures { OnOk result (out.new.items ≡ out.old.items ++ spots graph.now.nodes (item.now ∷ [])) }
{
    if let Some(spot) = spot_at(graph, item) {
        out.push(spot)?;
    }
    Ok(())
}

/// Where the items are that wait in the queue of a node, after others.
///
/// # Errors
/// `NoMemory` where memory ran out, and for nothing else.
pub(crate) fn push_waiting<B: Node>(
    state: &State<B>,
    node: usize,
    out: &mut Vec<Spot>,
) -> Result<(), NoMemory>
    requires { node < length state.now.pending.queues.lists }
    ensures { OnOk result (out.new.items ≡ out.old.items ++ spots state.now.graph.nodes (waiting_items (list_at state.now.pending.queues.lists node))) }
{
    let entries = state.pending.queues.entries(node);
    for i in 0..entries.len() {
        match &entries[i] {
            Entry::Waiting(item) => push_spot(&state.graph, item, out)?,
            Entry::Out(_) => {}
        }
    }
    Ok(())
}

// An order takes a node away, or the going of a peer does.
fn may_retire(body: &Body) -> bool
    ensures { result ≡ may_retire body.now }
{
    match body {
        Body::Msg(_) | Body::Leave { .. } => true,
        Body::Frame { .. }
        | Body::Join2 { .. }
        | Body::Join3 { .. }
        | Body::Undo { .. }
        | Body::Rebind { .. }
        | Body::Tick(_)
        | Body::Learn { .. } => false,
    }
}

// Whether nothing came of a packet, not even a refusal.
fn is_silent(outcome: &Outcome) -> bool
    ensures { result ≡ is_silent outcome.now }
{
    outcome.errno.0 == 0
        && outcome.sends.as_slice().is_empty()
        && outcome.leaves.as_slice().is_empty()
}

// What came of an item by this outcome, if it is a packet.
fn came_by(body: &Body, outcome: &Outcome) -> Option<Came>
    ensures frame { is_frame body.now ≡ true → result ≡ Some (came_unless false outcome.now) }
    ensures other { is_frame body.now ≡ false → result ≡ None }
{
    if !body.is_frame() {
        return None;
    }
    Some(Came {
        gone: false,
        leaves: outcome.leaves.as_slice().len() as u64,
        silent: is_silent(outcome),
        errno: outcome.errno,
    })
}

// What came of an item that needs no work, if it is a packet: its hook is gone.
fn came_unworked(body: &Body) -> Option<Came>
    ensures frame { (out : TheOutcome) → is_frame body.now ≡ true → result ≡ Some (came_unless true out) }
    ensures other { is_frame body.now ≡ false → result ≡ None }
{
    if !body.is_frame() {
        return None;
    }
    Some(Came {
        gone: true,
        leaves: 0,
        silent: false,
        errno: Errno::NONE,
    })
}

// What came of an item, if it is a packet.
fn came_of<B: Node>(done: &Done<B>) -> Option<Came>
    ensures { (w : World) (node : NodeRecord) → IsDone (job_of w (item_done done.now)) (handed_with B.state done.now)
        → node_at w (item_done done.now).to ≡ Some node → result ≡ came_of node (item_done done.now).body }
{
    match done {
        Done::Read { item, outcome } => came_by(&item.body, outcome),
        Done::Write {
            item,
            node: _,
            outcome,
        } => came_by(&item.body, outcome),
        Done::Inside { item } => came_unworked(&item.body),
    }
}

// The item that was worked on.
fn item_done<B: Node>(done: &Done<B>) -> &Item
    ensures { result.now ≡ item_done done.now }
{
    match done {
        Done::Read { item, outcome: _ } => item,
        Done::Write {
            item,
            node: _,
            outcome: _,
        } => item,
        Done::Inside { item } => item,
    }
}

// Where the items are that wait at a node, if an item may take it away.
fn waiting_if<B: Node>(alloc: Global, state: &State<B>, item: &Item) -> Result<Vec<Spot>, NoMemory>
    requires { item.now.to.0 < length state.now.pending.queues.lists }
    ensures { IfOk result (λ waiting. (a : RunState) → Stands state.now a
        → waiting.items ≡ spots_if (may_retire item.now.body) a item.now.to) }
{
    let mut waiting = Vec::new(alloc);
    if !may_retire(&item.body) {
        return Ok(waiting);
    }
    push_waiting(state, item.to.0 as usize, &mut waiting)?;
    Ok(waiting)
}

/// What is seen before an item is applied.
///
/// # Errors
/// `NoMemory` where memory ran out, and for nothing else.
pub(crate) fn look<B: Node>(
    alloc: Global,
    state: &State<B>,
    done: &Done<B>,
) -> Result<Seen, NoMemory>
    requires there { (item_done done.now).to.0 < length state.now.pending.queues.lists }
    ensures { IfOk result (λ seen. (a : RunState) → Stands state.now a
        → IsDone (job_of a.world (item_done done.now)) (handed_with B.state done.now) → IsSeen a (item_done done.now) seen) }
{
    let item = item_done(done);
    let waiting = waiting_if(alloc, state, item)?;
    Ok(Seen {
        id: item.id,
        to: item.to,
        spot: spot_at(&state.graph, item),
        came: came_of(done),
        waiting,
        lost: state.pending.tally.lost,
        next_item: state.pending.tally.next_item,
    })
}
