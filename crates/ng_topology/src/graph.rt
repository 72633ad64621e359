// The graph.
ghost use Rattle.std.specs.Prelude.{◌≡◌, ◌↔◌, ◌+◌, ◌<◌, ◌≤◌, All, true, false, if◌then◌else◌, length, map, is_some, IfOk, IsOk, IfSome, OnOk, OnErr, IsSome, Some, None, Ok, Err};
ghost use Rattle.std.specs.Arc.{arc_value};
ghost use Rattle.std.specs.Option.{option_map, option_copied};
ghost use Rattle.ng_machine.specs.Case.{absorb};
ghost use Rattle.ng_machine.specs.Errors.{enfile, eexist};
ghost use Rattle.ng_machine.specs.Rules.{accepts_hook, may_of};
ghost use Rattle.ng_machine.specs.State.{kind_of, blank_of, way_of};
ghost use Rattle.ng_machine.specs.Stock.{has_kind};
ghost use Rattle.ng_machine.specs.World.{World, NodeRecord, node_in, node_at, kind_at, state_of, hook_at, has_hook, find_named, node_id, link_id, new_hook, with_hook, without_hook, without_hooks, with_changed_hook, settle_hook, bind_to, blank_node};
ghost use Rattle.ng_topology.specs.Topology.{empty_graph, linked_hook_at, name_of, is_end, is_free, IsThere, IsAtHome, IsSound, FitsNodeAt, MayGetHook, change_node, make_node, retire_node, use_link, lend_box, give_box, sprout_node, world_of, address_of};
ghost use Rattle.ng_topology.specs.hooks.Hooks.{count_joined};
ghost use Rattle.ng_machine.specs.Walk.{if_there, head_at, peer_of, follow, walk};
ghost use Rattle.ng_topology.specs.declared.graph.MakeFault.TheVariants.{Used};

use crate::hooks::Hooks;
use crate::names::{enter_name, forget_name};
use crate::{Entry, Places, Stock};
use ng_base::{Errno, Kind, LinkId, Name, NoMemory, NodeId};
use ng_machine::{Counts, End, Hook};
use ng_path::{Head, Path};
use ng_plan::Plan;
use ng_plan::node::Node;
use std::alloc::Global;
use std::collections::BTreeMap;
use std::marker::Model;
use std::sync::Arc;
use thiserror::Error;

/// The nodes with their hooks, their boxes and plans, and the blank boxes that are left (netgraph(4)).
///
/// A contract sees the nodes, the kinds of the blank boxes and the number of the next link as the machine's world has them,
/// and of which nodes the boxes are at home.
#[derive(Drop)]
pub struct Graph<B: Node> {
    places: Places<B>,
    stock: Stock<B>,
    // The number of each node that has a name, under that name.
    names: BTreeMap<Name, NodeId>,
    next_link: u32,
}

impl<B: Node> Model for Graph<B> {
    ghost use Rattle.ng_topology.specs.NameIndex.{IsConsistent};
    ghost use Rattle.ng_topology.specs.Topology.{Topology};

    ghost Value = { Topology };

    ghost view = { λ g. record { nodes = g.places.nodes; home = g.places.home; stock = g.stock; next_link = g.next_link } };

    ghost invariant = { λ g. IsConsistent g.places g.stock g.names };
}

/// Why no node is made.
#[derive(Clone, Copy, Debug, PartialEq, Eq, Error)]
pub enum MakeFault {
    /// No blank box of the kind is left.
    #[error("no node of the type is left")]
    Used,
    /// There is no memory.
    #[error("out of memory")]
    NoMemory,
}

fn hook_to(name: Name, link: LinkId, to: End, joined: bool) -> Hook
    ensures { result ≡ new_hook name link to.node to.hook joined }
{
    Hook {
        name,
        link,
        peer: to,
        joined,
    }
}

impl<B: Node> Graph<B> {
    /// No nodes, and boxes to make them of. Each box is a blank node of its kind.
    ///
    /// # Errors
    /// `NoMemory` where memory ran out, and for nothing else.
    pub fn new(alloc: Global, stock: Vec<B>) -> Result<Self, NoMemory>
        requires few { length stock.items ≤ 4000000000 }
        requires blank { All (λ b. B.state b ≡ blank_of (kind_of (B.state b))) stock.items }
        ensures { IfOk result (λ graph. graph ≡ empty_graph (map (λ b. kind_of (B.state b)) stock.items)) }
    {
        let places = Places::new(alloc, stock.len())?;
        Ok(Graph {
            places,
            stock: Stock::new(stock),
            names: BTreeMap::new(alloc),
            next_link: 1,
        })
    }

    /// The type of the node of that number, if there is one.
    pub fn kind(&self, id: NodeId) -> Option<Kind>
        ensures { result ≡ option_map kind_at (node_in self.now.nodes id) }
    {
        match self.places.entry(id) {
            Some(entry) => Some(entry.kind()),
            None => None,
        }
    }

    /// The name of the node of that number, if it is there and has one.
    pub fn name(&self, id: NodeId) -> Option<&Name>
        ensures { option_copied result ≡ name_of (node_in self.now.nodes id) }
    {
        match self.places.entry(id) {
            Some(entry) => entry.name(),
            None => None,
        }
    }

    /// A law: of each number it is known whether a box is at home, and a box at home has a node. The call does nothing.
    pub fn soundness(&self)
        ensures { IsSound self.now }
    {
        self.places.soundness();
    }

    // The name of the node of that number, if it is there and has one.
    fn own_name(&self, id: NodeId) -> Option<Name>
        ensures { result ≡ name_of (node_in self.now.nodes id) }
    {
        self.name(id).copied()
    }

    /// The node of that name, if there is one.
    pub fn named(&self, name: &Name) -> Option<NodeId>
        ensures { result ≡ find_named 0 name.now self.now.nodes }
    {
        self.names.get(name).copied()
    }

    /// The hooks of a node that is there, in the order in which they were made.
    pub fn hooks(&self, id: NodeId) -> &[Hook]
        requires { IsThere self.now id }
        ensures { (node : NodeRecord) → node_in self.now.nodes id ≡ Some node → result.now ≡ node.hooks }
    {
        match self.places.entry(id) {
            Some(entry) => entry.hooks(),
            None => unreachable!(),
        }
    }

    /// How many of the hooks of a node that is there are joined.
    pub fn joined(&self, id: NodeId) -> usize
        requires { IsThere self.now id }
        ensures { (node : NodeRecord) → node_in self.now.nodes id ≡ Some node → result ≡ count_joined node.hooks }
    {
        match self.places.entry(id) {
            Some(entry) => entry.joined(),
            None => unreachable!(),
        }
    }

    /// The hook of that name at the node of that number, if both are there.
    pub fn peer(&self, id: NodeId, hook: &Name) -> Option<&Hook>
        ensures { option_copied result ≡ hook_at (node_in self.now.nodes id) hook.now }
    {
        match self.places.entry(id) {
            Some(entry) => entry.hook(hook),
            None => None,
        }
    }

    /// The hook of that name at the node of that number, if both are there. It is looked for at a place among the node's hooks
    /// and at the next one first, so whoever asks for hooks in their order finds each at once.
    pub fn peer_near(&self, id: NodeId, hook: &Name, near: usize) -> Option<&Hook>
        ensures { option_copied result ≡ hook_at (node_in self.now.nodes id) hook.now }
    {
        match self.places.entry(id) {
            Some(entry) => entry.hook_near(hook, near),
            None => None,
        }
    }

    /// Whether the node of that number is there, and its hook of that name has that link.
    pub fn has_link(&self, id: NodeId, hook: &Name, link: LinkId) -> bool
        ensures { result ≡ is_some (linked_hook_at (node_in self.now.nodes id) hook.now link) }
    {
        match self.places.entry(id) {
            Some(entry) => entry.has_link(hook, link),
            None => false,
        }
    }

    // The node, where it is there.
    fn there(&self, id: NodeId) -> Option<NodeId>
        ensures { result ≡ if_there (world_of self.now.nodes) id }
    {
        match self.places.entry(id) {
            Some(_) => Some(id),
            None => None,
        }
    }

    // The node where an address begins.
    fn head(&self, from: NodeId, head: &Head) -> Option<NodeId>
        ensures { result ≡ head_at (world_of self.now.nodes) from head.now }
    {
        match head {
            Head::Local => self.there(from),
            Head::Named(name) => self.named(name),
            Head::Id(id) => self.there(*id),
        }
    }

    // The node at the other end of a hook, where it is joined and the node is there.
    fn peer_node(&self, id: NodeId, hook: &Name) -> Option<NodeId>
        ensures { result ≡ peer_of (world_of self.now.nodes) (hook_at (node_in self.now.nodes id) hook.now) }
    {
        match self.peer(id, hook) {
            Some(hook) => {
                if hook.joined {
                    self.there(hook.peer.node)
                } else {
                    None
                }
            }
            None => None,
        }
    }

    // The node that an address leads to, from a node.
    #[tactic(auto, using(crate::proofs::WalkLemmas::follow_none))]
    fn follow(&self, from: NodeId, path: &Path<'_>) -> Option<NodeId>
        ensures { result ≡ walk (world_of self.now.nodes) from (address_of path.now.head path.now.hooks) }
    {
        let Some(begin) = self.head(from, &path.head) else {
            return None;
        };
        let mut id = begin;
        for hook in path.hooks.iter() {
            match self.peer_node(id, &hook) {
                Some(peer) => id = peer,
                None => return None,
            }
        }
        Some(id)
    }

    /// The node that an address leads to, from a node: none exactly where its head names no node, a hook isn't there or isn't
    /// joined, or its peer node isn't there. It takes no memory.
    pub fn walk(&self, from: NodeId, path: &Path<'_>) -> Option<NodeId>
        ensures { (w : World) → w.nodes ≡ self.now.nodes → result ≡ walk w from (address_of path.now.head path.now.hooks) }
    {
        self.follow(from, path)
    }

    /// Whether the node, whose box is at home, may get a hook of that name.
    ///
    /// # Errors
    /// `EEXIST` where the hook is there, else `EINVAL` where the type doesn't take the name.
    pub fn may(&self, id: NodeId, hook: &Name) -> Result<(), Errno>
        requires { IsAtHome self.now id }
        ensures { (node : NodeRecord) → node_in self.now.nodes id ≡ Some node → result ≡ (if has_hook node hook.now then Err eexist else may_of (kind_at node) hook.now) }
    {
        match self.places.entry(id) {
            Some(entry) => entry.may(hook),
            None => unreachable!(),
        }
    }

    /// Whether a blank box of the kind is left and takes a hook of that name.
    ///
    /// # Errors
    /// `ENFILE` where none is left, else `EINVAL` where the kind doesn't take the name.
    pub fn blank_may(&self, kind: Kind, hook: &Name) -> Result<(), Errno>
        ensures { result ≡ (if has_kind self.now.stock kind then may_of kind hook.now else Err enfile) }
    {
        self.stock.may(kind, hook)
    }

    /// The box of a node, which is at home.
    pub fn node(&self, id: NodeId) -> &B
        requires { IsAtHome self.now id }
        ensures { (node : NodeRecord) → node_in self.now.nodes id ≡ Some node → B.state result.now ≡ state_of node }
    {
        match self.places.entry(id) {
            Some(entry) => entry.node(),
            None => unreachable!(),
        }
    }

    /// The plan of a node that is there and has one, which all but a one2many have; it is shared. It is made where none was since
    /// the node last changed.
    ///
    /// # Errors
    /// `NoMemory` where memory ran out, or the plan is shared more often than can be counted.
    pub fn plan(&mut self, alloc: Global, id: NodeId) -> Result<Arc<Plan>, NoMemory>
        requires there { IsThere self.old id }
        requires planned { (node : NodeRecord) → node_in self.old.nodes id ≡ Some node → IsSome (way_of (state_of node)) }
        ensures plan { IfOk result (λ plan. (node : NodeRecord) → node_in self.old.nodes id ≡ Some node → way_of (state_of node) ≡ Some (arc_value plan)) }
        ensures same { self.new ≡ self.old }
    {
        self.places.plan(alloc, id)
    }

    /// The plan of a node that is there, shared, and none of a one2many. Where none was made since the node last changed, one is
    /// made, and the node doesn't keep it.
    ///
    /// # Errors
    /// `NoMemory` where memory ran out, or the plan is shared more often than can be counted.
    pub fn share_plan(&self, alloc: Global, id: NodeId) -> Result<Option<Arc<Plan>>, NoMemory>
        requires { IsThere self.now id }
        ensures { IfOk result (λ plan. (node : NodeRecord) → node_in self.now.nodes id ≡ Some node → option_map arc_value plan ≡ way_of (state_of node)) }
    {
        match self.places.entry(id) {
            Some(entry) => entry.share_plan(alloc),
            None => unreachable!(),
        }
    }

    /// The plan of the node of that number, to be looked at, where the node is there and a plan was made since it last changed.
    pub fn peek_plan(&self, id: NodeId) -> Option<&Plan>
        ensures { IfSome result (λ plan. (node : NodeRecord) → node_in self.now.nodes id ≡ Some node → way_of (state_of node) ≡ Some plan.now) }
    {
        match self.places.entry(id) {
            Some(entry) => entry.peek_plan(),
            None => None,
        }
    }

    /// A number that no link has had. It takes no memory.
    pub fn fresh_link(&mut self) -> LinkId
        requires { self.old.next_link < 4000000000 }
        ensures link { result ≡ link_id self.old.next_link }
        ensures after { self.new ≡ use_link self.old }
    {
        let link = LinkId(self.next_link);
        self.next_link += 1;
        link
    }

    /// Gives a node that is there and has no name a name that no node has.
    ///
    /// # Errors
    /// `NoMemory` where memory ran out, and for nothing else; the graph is then as before.
    pub fn rename(&mut self, _alloc: Global, id: NodeId, name: Name) -> Result<(), NoMemory>
        requires there { IsThere self.old id }
        requires unnamed { name_of (node_in self.old.nodes id) ≡ None }
        requires free { is_free self.old (Some name) ≡ true }
        ensures ok { OnOk result (self.new ≡ change_node self.old id (λ node. record node { name = Some name })) }
        ensures err { OnErr result (self.new ≡ self.old) }
    {
        enter_name(&mut self.names, &Some(name), id)?;
        self.places.rename(id, name);
        Ok(())
    }

    /// Hands out the box of a node, which is at home and is then lent. The node keeps its plan, if it has one, meanwhile. It takes
    /// no memory.
    pub fn lend(&mut self, id: NodeId, plan: Option<Arc<Plan>>) -> B
        requires home { IsAtHome self.old id }
        requires planned { (node : NodeRecord) → node_in self.old.nodes id ≡ Some node → option_map arc_value plan ≡ way_of (state_of node) }
        ensures state { (node : NodeRecord) → node_in self.old.nodes id ≡ Some node → B.state result ≡ state_of node }
        ensures after { self.new ≡ lend_box self.old id }
    {
        self.places.lend(id, plan)
    }

    /// Brings a box home, in place of one that is there, of the node's kind and with its hooks. It takes no memory.
    pub fn give(&mut self, id: NodeId, node: B)
        requires there { IsThere self.old id }
        requires fits { FitsNodeAt self.old id (B.state node) }
        ensures { self.new ≡ give_box self.old id (B.state node) }
    {
        self.places.give(id, node);
    }

    /// Brings a lent box home as it went: with the state that the node has, whose plan stays. It takes no memory.
    pub fn restore(&mut self, id: NodeId, node: B)
        requires there { IsThere self.old id }
        requires same { (it : NodeRecord) → node_in self.old.nodes id ≡ Some it → B.state node ≡ state_of it }
        ensures { self.new ≡ give_box self.old id (B.state node) }
    {
        self.places.restore(id, node);
    }

    /// Adds what was counted to the counters of a node, whose box is at home; its plan stays. It takes no memory.
    pub fn absorb(&mut self, id: NodeId, counts: &Counts)
        requires { IsAtHome self.old id }
        ensures { self.new ≡ change_node self.old id (λ node. record node { kept = absorb node.kept counts.now }) }
    {
        self.places.absorb(id, counts);
    }

    /// Removes a node, whose box is at home, with its name and its hooks: the box. It takes no memory.
    pub fn retire(&mut self, id: NodeId) -> B
        requires { IsAtHome self.old id }
        ensures state { (node : NodeRecord) → node_in self.old.nodes id ≡ Some node → B.state result ≡ state_of node }
        ensures after { self.new ≡ retire_node self.old id }
    {
        let name = self.own_name(id);
        let node = self.places.retire(id);
        forget_name(&mut self.names, &name);
        node
    }

    /// Lets packets out of the hook of a node that is there, if the hook has that link: whether it has. It takes no memory.
    pub fn settle(&mut self, at: &End, link: LinkId) -> bool
        requires { IsThere self.old at.now.node }
        ensures answer { result ≡ is_end self.old at.now link }
        ensures after { self.new ≡ (if result then change_node self.old at.now.node (λ node. with_changed_hook node at.now.hook settle_hook) else self.old) }
    {
        self.places.settle(at.node, &at.hook, link)
    }

    /// Gives the hook of a node that is there a new link and another peer, if the hook has the old link: whether it has. It
    /// takes no memory.
    pub fn rebind(&mut self, at: &End, old: LinkId, new: LinkId, to: &End) -> bool
        requires { IsThere self.old at.now.node }
        ensures answer { result ≡ is_end self.old at.now old }
        ensures after { self.new ≡ (if result then change_node self.old at.now.node (λ node. with_changed_hook node at.now.hook (bind_to new to.now.node to.now.hook)) else self.old) }
    {
        self.places.rebind(at.node, &at.hook, old, new, *to)
    }

    /// Takes the hook away from a node, whose box is at home, if the hook has that link: whether it has. It takes no memory.
    pub fn leave(&mut self, at: &End, link: LinkId) -> bool
        requires home { IsAtHome self.old at.now.node }
        ensures answer { result ≡ is_end self.old at.now link }
        ensures after { self.new ≡ (if result then change_node self.old at.now.node (λ node. without_hook node at.now.hook) else self.old) }
    {
        self.places.leave(at.node, &at.hook, link)
    }

    /// Takes all hooks away from a node, whose box is at home. It takes no memory.
    pub fn clear(&mut self, id: NodeId)
        requires home { IsAtHome self.old id }
        ensures { self.new ≡ change_node self.old id without_hooks }
    {
        self.places.clear(id);
    }

    /// Adds a hook to a node, whose box is at home and which may get it, joined to a peer by that link.
    ///
    /// # Errors
    /// `NoMemory` where memory ran out, and for nothing else; the graph is then as before.
    pub fn join(&mut self, alloc: Global, at: &End, link: LinkId, to: &End) -> Result<(), NoMemory>
        requires home { IsAtHome self.old at.now.node }
        requires may { MayGetHook self.old at.now }
        ensures ok { OnOk result (self.new ≡ change_node self.old at.now.node (λ node. with_hook node (new_hook at.now.hook link to.now.node to.now.hook true))) }
        ensures err { OnErr result (self.new ≡ self.old) }
    {
        let hook = hook_to(at.hook, link, *to, true);
        self.places.add(alloc, at.node, hook)?;
        Ok(())
    }

    /// Adds a hook to a node, whose box is at home and which may get it, with a fresh link and not joined yet: the link.
    ///
    /// # Errors
    /// `NoMemory` where memory ran out, and for nothing else; the graph is then as before.
    pub fn add_half(&mut self, alloc: Global, at: &End, to: &End) -> Result<LinkId, NoMemory>
        requires home { IsAtHome self.old at.now.node }
        requires may { MayGetHook self.old at.now }
        requires links { self.old.next_link < 4000000000 }
        ensures link { IfOk result (λ link. link ≡ link_id self.old.next_link) }
        ensures ok { OnOk result (self.new ≡ use_link (change_node self.old at.now.node (λ node. with_hook node (new_hook at.now.hook (link_id self.old.next_link) to.now.node to.now.hook false)))) }
        ensures err { OnErr result (self.new ≡ self.old) }
    {
        let link = LinkId(self.next_link);
        let hook = hook_to(at.hook, link, *to, false);
        self.places.add(alloc, at.node, hook)?;
        self.next_link += 1;
        Ok(link)
    }

    /// Makes a node out of a blank box of the kind, with a name that no node has or without one: its number.
    ///
    /// # Errors
    /// `Used` exactly where no blank box of the kind is left, else `NoMemory` where memory ran out, and for nothing else; the graph is then as
    /// before.
    pub fn make(
        &mut self,
        alloc: Global,
        kind: Kind,
        name: Option<Name>,
    ) -> Result<NodeId, MakeFault>
        requires { is_free self.old name ≡ true }
        ensures used { (result ≡ Err Used) ↔ (has_kind self.old.stock kind ≡ false) }
        ensures id { IfOk result (λ id. id ≡ node_id (length self.old.nodes)) }
        ensures ok { OnOk result (self.new ≡ make_node self.old kind (blank_node name kind)) }
        ensures err { OnErr result (self.new ≡ self.old) }
    {
        if !self.stock.has(kind) {
            return Err(MakeFault::Used);
        }
        let id = NodeId(self.places.len() as u32);
        let Ok(()) = enter_name(&mut self.names, &name, id) else {
            return Err(MakeFault::NoMemory);
        };
        let Some(node) = self.stock.take(kind) else {
            unreachable!()
        };
        self.places.push(Entry::blank(alloc, name, node, kind));
        Ok(id)
    }

    /// Makes a node without a name out of a blank box of the kind, at the other end of a new hook: its number. The hook's node
    /// is at home and may get the hook, and the blank box takes the other. Both hooks are joined by one fresh link.
    ///
    /// # Errors
    /// `NoMemory` where memory ran out, and for nothing else; the graph is then as before.
    pub fn sprout(
        &mut self,
        alloc: Global,
        at: &End,
        kind: Kind,
        hook: &Name,
    ) -> Result<NodeId, NoMemory>
        requires home { IsAtHome self.old at.now.node }
        requires may { MayGetHook self.old at.now }
        requires left { has_kind self.old.stock kind ≡ true }
        requires takes { accepts_hook kind hook.now ≡ true }
        requires links { self.old.next_link < 4000000000 }
        ensures id { IfOk result (λ id. id ≡ node_id (length self.old.nodes)) }
        ensures ok { OnOk result (self.new ≡ sprout_node self.old at.now kind hook.now) }
        ensures err { OnErr result (self.new ≡ self.old) }
    {
        let id = NodeId(self.places.len() as u32);
        let link = LinkId(self.next_link);
        let hooks = Hooks::one(alloc, hook_to(*hook, link, *at, true))?;
        let peer = End {
            node: id,
            hook: *hook,
        };
        let ours = hook_to(at.hook, link, peer, true);
        self.places.add(alloc, at.node, ours)?;
        match self.stock.take_with_hook(alloc, kind, hook) {
            Ok(node) => {
                self.places.push(Entry::with_hooks(kind, hooks, node));
                self.next_link += 1;
                Ok(id)
            }
            Err(why) => {
                self.places.leave(at.node, &at.hook, link);
                Err(why)
            }
        }
    }
}
