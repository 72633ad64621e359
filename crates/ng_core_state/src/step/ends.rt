// A node, whose box is at home, changes, and what is kept stands for the world in which it does.
ghost use Rattle.std.specs.Prelude.{◌≡◌, ◌<◌, true, false, None, Some, OnOk, OnErr, IfOk};
ghost use Rattle.ng_machine.specs.Run.{RunState};
ghost use Rattle.ng_machine.specs.World.{NodeRecord, bind_to, link_id, node_at, node_in, settle_hook, with_changed_hook, without_hook};
ghost use Rattle.ng_machine.specs.Rules.{accepts_hook};
ghost use Rattle.ng_machine.specs.Stock.{has_kind};
ghost use Rattle.ng_core_state.specs.step.Changed.{has_link, with_end, with_link, with_node, with_node_if, with_sprout};
ghost use Rattle.ng_queue.specs.pending.Holds.{in_world};
ghost use Rattle.ng_topology.specs.Topology.{IsAtHome, MayGetHook, is_free, name_of};
ghost use Rattle.ng_core_state.specs.Stands.{Stands};

use crate::State;
use ng_base::{Kind, LinkId, Name, NoMemory, NodeId};
use ng_machine::End;
use ng_plan::node::Node;
use std::alloc::Global;

/// The node of an end gets the end's hook, joined to a peer.
///
/// # Errors
/// `NoMemory` where memory ran out, and for nothing else; nothing changed.
pub fn add_joined<B: Node>(
    alloc: Global,
    state: &mut State<B>,
    at: &End,
    link: LinkId,
    to: &End,
) -> Result<(), NoMemory>
    requires home { IsAtHome state.old.graph at.now.node }
    requires may { MayGetHook state.old.graph at.now }
    ensures stands { OnOk result ((a : RunState) (node : NodeRecord) → Stands state.old a → node_at a.world at.now.node ≡ Some node
        → Stands state.new (in_world a (with_node a.world at.now.node (with_end node at.now link to.now true)))) }
    ensures home { state.new.graph.home ≡ state.old.graph.home }
    ensures pending { state.new.pending ≡ state.old.pending }
    ensures err { OnErr result (state.new ≡ state.old) }
{
    state.graph.join(alloc, at, link, to)
}

/// The node of an end gets the end's hook, with a fresh link and not joined yet: the link.
///
/// # Errors
/// `NoMemory` where memory ran out, and for nothing else; nothing changed.
pub fn add_half<B: Node>(
    alloc: Global,
    state: &mut State<B>,
    at: &End,
    to: &End,
) -> Result<LinkId, NoMemory>
    requires home { IsAtHome state.old.graph at.now.node }
    requires may { MayGetHook state.old.graph at.now }
    requires links { state.old.graph.next_link < 4000000000 }
    ensures link { IfOk result (λ link. link ≡ link_id state.old.graph.next_link) }
    ensures stands { OnOk result ((a : RunState) (node : NodeRecord) → Stands state.old a → node_at a.world at.now.node ≡ Some node
        → Stands state.new (in_world a (with_link (with_node a.world at.now.node (with_end node at.now (link_id a.world.next_link) to.now false))))) }
    ensures home { state.new.graph.home ≡ state.old.graph.home }
    ensures pending { state.new.pending ≡ state.old.pending }
    ensures err { OnErr result (state.new ≡ state.old) }
{
    state.graph.add_half(alloc, at, to)
}

/// Packets may be sent out of the hook of an end, if it has that link: whether it has.
pub fn settle_end<B: Node>(state: &mut State<B>, at: &End, link: LinkId) -> bool
    requires home { IsAtHome state.old.graph at.now.node }
    ensures answer { (node : NodeRecord) → node_in state.old.graph.nodes at.now.node ≡ Some node → result ≡ has_link node at.now.hook link }
    ensures stands { (a : RunState) (node : NodeRecord) → Stands state.old a → node_at a.world at.now.node ≡ Some node
        → Stands state.new (in_world a (with_node_if result a.world at.now.node (with_changed_hook node at.now.hook settle_hook))) }
{
    state.graph.soundness();
    state.graph.settle(at, link)
}

/// The hook of an end gets a new link and another peer, if it has the old link: whether it has.
pub fn rebind_end<B: Node>(
    state: &mut State<B>,
    at: &End,
    old: LinkId,
    new: LinkId,
    to: &End,
) -> bool
    requires home { IsAtHome state.old.graph at.now.node }
    ensures answer { (node : NodeRecord) → node_in state.old.graph.nodes at.now.node ≡ Some node → result ≡ has_link node at.now.hook old }
    ensures stands { (a : RunState) (node : NodeRecord) → Stands state.old a → node_at a.world at.now.node ≡ Some node
        → Stands state.new (in_world a (with_node_if result a.world at.now.node (with_changed_hook node at.now.hook (bind_to new to.now.node to.now.hook)))) }
{
    state.graph.soundness();
    state.graph.rebind(at, old, new, to)
}

/// The hook of an end is taken away, if it has that link: whether it has.
pub fn leave_end<B: Node>(state: &mut State<B>, at: &End, link: LinkId) -> bool
    requires home { IsAtHome state.old.graph at.now.node }
    ensures answer { (node : NodeRecord) → node_in state.old.graph.nodes at.now.node ≡ Some node → result ≡ has_link node at.now.hook link }
    ensures stands { (a : RunState) (node : NodeRecord) → Stands state.old a → node_at a.world at.now.node ≡ Some node
        → Stands state.new (in_world a (with_node_if result a.world at.now.node (without_hook node at.now.hook))) }
    ensures told { state.new.told ≡ state.old.told }
{
    state.graph.leave(at, link)
}

/// A node without a name gets one that no node has.
///
/// # Errors
/// `NoMemory` where memory ran out, and for nothing else; nothing changed.
pub fn give_name<B: Node>(
    alloc: Global,
    state: &mut State<B>,
    id: NodeId,
    name: Name,
) -> Result<(), NoMemory>
    requires home { IsAtHome state.old.graph id }
    requires unnamed { name_of (node_in state.old.graph.nodes id) ≡ None }
    requires free { is_free state.old.graph (Some name) ≡ true }
    ensures stands { OnOk result ((a : RunState) (node : NodeRecord) → Stands state.old a → node_at a.world id ≡ Some node
        → Stands state.new (in_world a (with_node a.world id (record node { name = Some name })))) }
    ensures home { state.new.graph.home ≡ state.old.graph.home }
    ensures pending { state.new.pending ≡ state.old.pending }
    ensures err { OnErr result (state.new ≡ state.old) }
{
    state.graph.soundness();
    state.graph.rename(alloc, id, name)
}

/// A node of a kind, of which a blank one is left, is made at the other end of a new hook of an end's node; both hooks are joined.
///
/// # Errors
/// `NoMemory` where memory ran out, and for nothing else; nothing changed.
pub fn sprout<B: Node>(
    alloc: Global,
    state: &mut State<B>,
    at: &End,
    kind: Kind,
    hook: &Name,
) -> Result<(), NoMemory>
    requires home { IsAtHome state.old.graph at.now.node }
    requires may { MayGetHook state.old.graph at.now }
    requires left { has_kind state.old.graph.stock kind ≡ true }
    requires takes { accepts_hook kind hook.now ≡ true }
    requires links { state.old.graph.next_link < 4000000000 }
    ensures stands { OnOk result ((a : RunState) (node : NodeRecord) → Stands state.old a → node_at a.world at.now.node ≡ Some node
        → Stands state.new (in_world a (with_sprout a.world at.now node kind hook.now))) }
    ensures home { OnOk result (IsAtHome state.new.graph at.now.node) }
    ensures pending { state.new.pending ≡ state.old.pending }
    ensures err { OnErr result (state.new ≡ state.old) }
{
    state.graph.soundness();
    state.graph.sprout(alloc, at, kind, hook)?;
    Ok(())
}
