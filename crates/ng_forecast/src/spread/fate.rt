// What becomes of a packet at the node that it comes to.
ghost use Rattle.std.specs.Prelude.{◌≡◌, ◌∷◌, ◌++◌, [], Some, is_some, IfOk, OnOk, IfSome, IfNone};
ghost use Rattle.ng_machine.specs.Effect.{door_name, is_hook_gone};
ghost use Rattle.ng_machine.specs.Outcome.{nothing};
ghost use Rattle.ng_machine.specs.Spread.{Vanishes, body_of, fate, is_followed, leaving, place_of, sent_by};
ghost use Rattle.ng_machine.specs.World.{NodeRecord, hook_at, linked_hook, node_in};
ghost use Rattle.ng_forecast.specs.spread.Following.{AreExits, ArrivesAt, Finds, IsExit};

use crate::spread::Flight;
use ng_base::{Errno, Kind, LinkId, Name, NoMemory, NodeId, Packet, Sequence};
use ng_core::Still;
use ng_machine::{Door, Exit, Outcome, Place};
use ng_plan::eval_into;
use ng_plan::node::Node;
use std::alloc::Global;
use std::mem;

// The first port's node.
const FIRST_PORT: u32 = 2;

/// What becomes of a packet at the node that it comes to, beside the copies that leave the graph.
#[derive(Drop)]
pub enum Fate {
    /// Nothing: the node isn't there, or its hook isn't or has another link.
    Vanishes,
    /// What becomes of it depends on the packets before it.
    Untold,
    /// Copies are sent out of these hooks of the node, in order.
    Comes { sends: Vec<(Name, Packet)> },
}

// Whether what becomes of a packet at a node of the kind doesn't depend on the packets before it.
fn is_followed(kind: Kind) -> bool
    ensures { result ≡ is_followed kind }
{
    match kind {
        Kind::Bridge | Kind::One2many => false,
        Kind::Hub
        | Kind::Hole
        | Kind::Echo
        | Kind::Tee
        | Kind::Split
        | Kind::Vlan
        | Kind::Patch
        | Kind::Bpf
        | Kind::Ether
        | Kind::Socket
        | Kind::Etf
        | Kind::Macset => true,
    }
}

// Whether the node's hook of that name is there, with that link. It is looked for at a place first.
fn has_link<B: Node>(
    still: &Still<'_, B>,
    id: NodeId,
    name: &Name,
    link: LinkId,
    near: usize,
) -> bool
    ensures { (node : NodeRecord) → node_in still.now.nodes id ≡ Some node → result ≡ is_some (linked_hook node name.now link) }
{
    if let Some(hook) = still.hook_near(id, name, near) {
        if hook.link.0 == link.0 {
            return true;
        }
    }
    still.has_link(id, name, link)
}

// Whether the hook that the packet comes by isn't there any more, or has another link.
fn is_hook_gone<B: Node>(still: &Still<'_, B>, flight: &Flight) -> bool
    ensures { (node : NodeRecord) → node_in still.now.nodes flight.now.to ≡ Some node → result ≡ is_hook_gone (Some node) (body_of flight.now) }
{
    match (&flight.door, flight.link) {
        (Door::Wire, _) => false,
        (Door::Hook(_), None) => true,
        (Door::Hook(hook), Some(link)) => !has_link(still, flight.to, hook, link, flight.near),
    }
}

/// The kind of the node that the packet arrives at: none where the packet vanishes, since the node isn't there, or its hook isn't
/// or has another link.
pub(super) fn arrives_at<B: Node>(still: &Still<'_, B>, flight: &Flight) -> Option<Kind>
    ensures there { IfSome result (λ kind. ArrivesAt still.now.nodes flight.now kind) }
    ensures gone { IfNone result (fate still.now.nodes flight.now ≡ Vanishes) }
{
    let Some(kind) = still.kind(flight.to) else {
        return None;
    };
    if is_hook_gone(still, flight) {
        return None;
    }
    Some(kind)
}

// Where a packet is that leaves by a way, at a node to which it came by a door.
fn place_of(at: NodeId, door: &Door, exit: Exit) -> Place
    requires { IsExit door.now exit }
    ensures { result ≡ place_of at (door_name door.now) exit }
{
    match (exit, door) {
        (Exit::Wire, _) => Place::Wire(at.0.saturating_sub(FIRST_PORT)),
        (Exit::Host, _) => Place::Host(at.0.saturating_sub(FIRST_PORT)),
        (Exit::Reader, Door::Hook(hook)) => Place::Reader(*hook),
        (Exit::Reader, Door::Wire) => unreachable!(),
    }
}

// The packets that leave are added to a bag, each with its place.
fn put_leaves(
    at: NodeId,
    door: &Door,
    leaves: &[(Exit, Packet)],
    bag: &mut Vec<(Place, Packet)>,
) -> Result<(), NoMemory>
    requires { AreExits door.now leaves.now }
    ensures { OnOk result (bag.new.items ≡ bag.old.items ++ leaving at (door_name door.now) leaves.now) }
{
    for (exit, packet) in leaves {
        bag.push((place_of(at, door, *exit), packet.again()?))?;
    }
    Ok(())
}

// Drops the values of a list, and keeps its memory.
fn clear_list<T: Drop>(alloc: Global, list: &mut Sequence<T>)
    ensures { list.new ≡ [] }
{
    let mut values = mem::replace(list, Sequence::new(alloc)).into_vec();
    values.clear();
    *list = Sequence::from_vec(values);
}

// What an outcome sends. Nothing is left of the outcome but the memory of its other lists.
fn take_sends(alloc: Global, outcome: &mut Outcome) -> Vec<(Name, Packet)>
    ensures sends { result.items ≡ outcome.old.sends }
    ensures blank { outcome.new ≡ nothing }
{
    let sends = mem::replace(&mut outcome.sends, Sequence::new(alloc)).into_vec();
    clear_list(alloc, &mut outcome.leaves);
    clear_list(alloc, &mut outcome.counts);
    outcome.answer = None;
    outcome.learn = None;
    outcome.errno = Errno::NONE;
    sends
}

/// A copy that a node sends out of a hook, on its way: none where it doesn't arrive, since the hook isn't there or
/// isn't joined, or its peer's node isn't there. The hook and its peer's are looked for at a place first.
pub(super) fn sent_flight<B: Node>(
    still: &Still<'_, B>,
    at: NodeId,
    name: &Name,
    packet: Packet,
    near: usize,
) -> Option<Flight>
    ensures some { IfSome result (λ f.
        sent_by still.now.nodes (hook_at (node_in still.now.nodes at) name.now) packet ≡ f ∷ []) }
    ensures none { IfNone result
        (sent_by still.now.nodes (hook_at (node_in still.now.nodes at) name.now) packet ≡ []) }
{
    let Some(hook) = still.hook_near(at, name, near) else {
        return None;
    };
    if hook.joined && still.kind(hook.peer.node).is_some() {
        Some(Flight {
            to: hook.peer.node,
            door: Door::Hook(hook.peer.hook),
            link: Some(hook.link),
            packet,
            near,
        })
    } else {
        None
    }
}

/// What becomes of a packet at the node that it comes to. The copies that leave there are added to the bag, each with
/// its place. `spare` is an outcome that has nothing, whose memory is used again.
///
/// # Errors
/// `NoMemory` where memory ran out, and for nothing else. Nothing is said of the bag and of `spare` then.
pub fn find_fate<B: Node>(
    alloc: Global,
    still: &Still<'_, B>,
    flight: &Flight,
    spare: &mut Outcome,
    bag: &mut Vec<(Place, Packet)>,
) -> Result<Fate, NoMemory>
    requires { spare.old ≡ nothing }
    ensures blank { OnOk result (spare.new ≡ nothing) }
    ensures found { IfOk result (λ found. Finds still.now.nodes flight.now found bag.old.items bag.new.items) }
{
    let Some(kind) = arrives_at(still, flight) else {
        return Ok(Fate::Vanishes);
    };
    if !is_followed(kind) {
        return Ok(Fate::Untold);
    }
    let Some(plan) = still.plan(flight.to) else {
        unreachable!()
    };
    eval_into(alloc, plan, &flight.door, &flight.packet, spare)?;
    put_leaves(flight.to, &flight.door, spare.leaves.as_slice(), bag)?;
    let sends = take_sends(alloc, spare);
    Ok(Fate::Comes { sends })
}
