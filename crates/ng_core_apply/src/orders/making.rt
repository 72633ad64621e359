// The orders to make a node at a new hook, and to give a node a name.
ghost use Rattle.std.specs.Prelude.{◌≡◌, None, Some, OnOk, OnErr, IfErr, true};
ghost use Rattle.ng_machine.specs.Errors.{enfile};
ghost use Rattle.ng_machine.specs.Generic.{mkpeer_refusal, rename_refusal};
ghost use Rattle.ng_machine.specs.Rules.{accepts_hook, is_fixed};
ghost use Rattle.ng_machine.specs.Stock.{has_kind};
ghost use Rattle.ng_machine.specs.World.{NodeRecord, World, has_hook, node_in};
ghost use Rattle.ng_core_apply.specs.orders.Refusals.{has_error, refused};
ghost use Rattle.ng_core_apply.specs.orders.Orders.{makes_peer, makes_peer_of, makes_node, renames, gets_name};
ghost use Rattle.ng_core_state.specs.step.Steps.{MayStep, StandsOn, Steps};
ghost use Rattle.ng_path.specs.Address.{begins_with};
ghost use Rattle.ng_topology.specs.Topology.{IsAtHome, MayGetHook, is_free, name_of};

use crate::orders::apply_refusal;
use ng_base::{Errno, Kind, Name, NodeId};
use ng_core_state::State;
use ng_core_state::step::{finish, give_name, sprout};
use ng_machine::{End, Item};
use ng_plan::node::Node;
use ng_topology::Graph;
use std::alloc::Global;

// Whether no order makes a node of the kind.
fn is_fixed(kind: Kind) -> bool
    ensures { result ≡ is_fixed kind }
{
    kind.number() == Kind::Ether.number() || kind.number() == Kind::Socket.number()
}

// Whether no blank node of a kind is left.
fn is_used_up(answer: Result<(), Errno>) -> bool
    ensures { result ≡ has_error enfile answer }
{
    match answer {
        Ok(()) => false,
        Err(errno) => errno.0 == Errno::NFILE.0,
    }
}

fn has_hook<B: Node>(graph: &Graph<B>, at: NodeId, hook: &Name) -> bool
    ensures { (node : NodeRecord) → node_in graph.now.nodes at ≡ Some node → result ≡ has_hook node hook.now }
{
    graph.peer(at, hook).is_some()
}

// Whether a node of the kind may be made at the other end of a new hook: the first of five refusals.
fn may_make<B: Node>(
    graph: &Graph<B>,
    at: NodeId,
    kind: Kind,
    ours: &Name,
    theirs: &Name,
) -> Result<(), Errno>
    requires { IsAtHome graph.now at }
    ensures { (w : World) (node : NodeRecord) → w.stock ≡ graph.now.stock → node_in graph.now.nodes at ≡ Some node
        → result ≡ refused (mkpeer_refusal w node kind ours.now theirs.now) }
{
    if is_fixed(kind) {
        return Err(Errno::PERM);
    }
    let blank = graph.blank_may(kind, theirs);
    if is_used_up(blank) {
        return blank;
    }
    if has_hook(graph, at, ours) {
        return Err(Errno::EXIST);
    }
    if blank.is_err() {
        return blank;
    }
    graph.may(at, ours)
}

// A node of the kind is made at the other end of a new hook, which is joined.
fn make<B: Node>(
    alloc: Global,
    state: &mut State<B>,
    item: Item,
    kind: Kind,
    ours: &Name,
    theirs: &Name,
) -> Result<(), Item>
    requires work { MayStep state.old item (makes_node item kind ours.now theirs.now) }
    requires home { IsAtHome state.old.graph item.to }
    requires may { MayGetHook state.old.graph (record { node = item.to; hook = ours.now }) }
    requires left { has_kind state.old.graph.stock kind ≡ true }
    requires takes { accepts_hook kind theirs.now ≡ true }
    ensures applied { OnOk result (Steps state.old state.new item (makes_node item kind ours.now theirs.now)) }
    ensures err { OnErr result (StandsOn state.old state.new) }
    ensures back { IfErr result (λ it. it ≡ item) }
{
    let at = End {
        node: item.to,
        hook: *ours,
    };
    if sprout(alloc, state, &at, kind, theirs).is_err() {
        return Err(item);
    }
    finish(state, &item);
    Ok(())
}

// Or the node is refused.
fn make_unless<B: Node>(
    alloc: Global,
    state: &mut State<B>,
    item: Item,
    kind: Kind,
    ours: &Name,
    theirs: &Name,
) -> Result<(), Item>
    requires work { MayStep state.old item (makes_peer_of item kind ours.now theirs.now) }
    requires home { IsAtHome state.old.graph item.to }
    ensures applied { OnOk result (Steps state.old state.new item (makes_peer_of item kind ours.now theirs.now)) }
    ensures err { OnErr result (StandsOn state.old state.new) }
    ensures back { IfErr result (λ it. it ≡ item) }
{
    match may_make(&state.graph, item.to, kind, ours, theirs) {
        Err(errno) => apply_refusal(alloc, state, item, errno),
        Ok(()) => make(alloc, state, item, kind, ours, theirs),
    }
}

/// The order to make a node of a type at the other end of a new hook of the item's node, both hooks joined. Refused are, in this
/// order: a name that is no type's, with `ENXIO`; a type that no order makes, with `EPERM`; one of which no blank node is left,
/// with `ENFILE`; a hook that is there, with `EEXIST`; a hook that the new node or ours doesn't take, with `EINVAL`.
///
/// # Errors
/// The item itself where memory ran out, and for nothing else; nothing but room changed.
pub fn apply_mkpeer<B: Node>(
    alloc: Global,
    state: &mut State<B>,
    item: Item,
    kind_name: &Name,
    ours: &Name,
    theirs: &Name,
) -> Result<(), Item>
    requires work { MayStep state.old item (makes_peer item kind_name.now ours.now theirs.now) }
    requires home { IsAtHome state.old.graph item.to }
    ensures applied { OnOk result (Steps state.old state.new item (makes_peer item kind_name.now ours.now theirs.now)) }
    ensures err { OnErr result (StandsOn state.old state.new) }
    ensures back { IfErr result (λ it. it ≡ item) }
{
    match Kind::read(kind_name) {
        None => apply_refusal(alloc, state, item, Errno::NXIO),
        Some(kind) => make_unless(alloc, state, item, kind, ours, theirs),
    }
}

// Whether the name begins with an opening bracket, as the number of a node in an address does.
fn has_bracket(name: &Name) -> bool
    ensures { result ≡ begins_with 0x5b name.now }
{
    match name.bytes().first() {
        Some(byte) => *byte == b'[',
        None => false,
    }
}

// Whether the node may get the name: the first of three refusals.
fn may_rename<B: Node>(graph: &Graph<B>, at: NodeId, name: &Name) -> Result<(), Errno>
    ensures answer { (w : World) (node : NodeRecord) → w.nodes ≡ graph.now.nodes → node_in graph.now.nodes at ≡ Some node
        → result ≡ refused (rename_refusal w node name.now) }
    ensures unnamed { OnOk result (name_of (node_in graph.now.nodes at) ≡ None) }
    ensures free { OnOk result (is_free graph.now (Some name.now) ≡ true) }
{
    if has_bracket(name) {
        return Err(Errno::INVAL);
    }
    if graph.name(at).is_some() {
        return Err(Errno::ISCONN);
    }
    if graph.named(name).is_some() {
        return Err(Errno::ADDRINUSE);
    }
    Ok(())
}

// The node gets the name.
fn rename<B: Node>(alloc: Global, state: &mut State<B>, item: Item, name: Name) -> Result<(), Item>
    requires work { MayStep state.old item (gets_name name) }
    requires home { IsAtHome state.old.graph item.to }
    requires unnamed { name_of (node_in state.old.graph.nodes item.to) ≡ None }
    requires free { is_free state.old.graph (Some name) ≡ true }
    ensures applied { OnOk result (Steps state.old state.new item (gets_name name)) }
    ensures err { OnErr result (StandsOn state.old state.new) }
    ensures back { IfErr result (λ it. it ≡ item) }
{
    if give_name(alloc, state, item.to, name).is_err() {
        return Err(item);
    }
    finish(state, &item);
    Ok(())
}

/// The order to give the item's node a name. Refused are, in this order: a name that begins with a bracket, with `EINVAL`; a
/// node that has a name, with `EISCONN`; a name that a node has, with `EADDRINUSE`.
///
/// # Errors
/// The item itself where memory ran out, and for nothing else; nothing but room changed.
pub fn apply_rename<B: Node>(
    alloc: Global,
    state: &mut State<B>,
    item: Item,
    name: Name,
) -> Result<(), Item>
    requires work { MayStep state.old item (renames item name) }
    requires home { IsAtHome state.old.graph item.to }
    ensures applied { OnOk result (Steps state.old state.new item (renames item name)) }
    ensures err { OnErr result (StandsOn state.old state.new) }
    ensures back { IfErr result (λ it. it ≡ item) }
{
    match may_rename(&state.graph, item.to, &name) {
        Err(errno) => apply_refusal(alloc, state, item, errno),
        Ok(()) => rename(alloc, state, item, name),
    }
}
