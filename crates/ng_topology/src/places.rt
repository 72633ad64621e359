// The nodes by their numbers.
ghost use Rattle.std.specs.Prelude.{◌≡◌, ◌+◌, ◌<◌, ◌≤◌, ◌++◌, ◌∷◌, [], true, false, if◌then◌else◌, length, map, is_some, slice_index_or, slice_set, IfOk, IfSome, IfNone, OnOk, OnErr, IsSome, Some, None};
ghost use Rattle.std.specs.Arc.{arc_value};
ghost use Rattle.std.specs.Option.{option_map};
ghost use Rattle.ng_base.specs.declared.ids.NodeId.{NodeId};
ghost use Rattle.ng_machine.specs.Case.{absorb};
ghost use Rattle.ng_machine.specs.State.{way_of};
ghost use Rattle.ng_machine.specs.World.{NodeRecord, node_in, state_of, with_hook, without_hook, without_hooks, with_changed_hook, settle_hook, bind_to};
ghost use Rattle.ng_topology.specs.NodeEntry.{NodeEntry, AcceptsHook};
ghost use Rattle.ng_topology.specs.Topology.{FitsNode, change_at, linked_hook_at, with_kept};

use crate::Entry;
use ng_base::{LinkId, Name, NoMemory, NodeId};
use ng_machine::{Counts, End, Hook};
use ng_plan::Plan;
use ng_plan::node::Node;
use std::alloc::Global;
use std::marker::Model;
use std::mem;
use std::sync::Arc;

/// The nodes by their numbers. A contract sees the nodes of the machine's world, of which the boxes are at home, and for how many
/// more nodes there is room.
#[derive(Drop)]
pub struct Places<B: Node> {
    entries: Vec<Option<Entry<B>>>,
    room: usize,
}

impl<B: Node> Model for Places<B> {
    ghost use Rattle.std.specs.Prelude.{◌+◌, ◌≤◌};
    ghost use Rattle.std.specs.Vec.{vec_len, vec_capacity};
    ghost use Rattle.ng_topology.specs.NodePlaces.{NodePlaces, places_as};

    ghost Value = { NodePlaces };

    ghost view = { λ p. places_as p.entries.items p.room };

    ghost invariant = { λ p. vec_len p.entries + p.room ≤ vec_capacity p.entries };
}

impl<B: Node> Places<B> {
    /// No nodes: the number 0 is nobody's. There is room for so many.
    ///
    /// # Errors
    /// `NoMemory` where memory ran out, and for nothing else.
    pub fn new(alloc: Global, room: usize) -> Result<Self, NoMemory>
        requires { room ≤ 4000000000 }
        ensures { IfOk result (λ places. places ≡ record { nodes = None ∷ []; home = false ∷ []; room = room }) }
    {
        let mut entries = Vec::new(alloc);
        entries.reserve(room + 1)?;
        entries.push_reserved(None);
        Ok(Places { entries, room })
    }

    /// The numbers that were used, and 0.
    pub fn len(&self) -> usize
        ensures nodes { result ≡ length self.now.nodes }
        ensures home { result ≡ length self.now.home }
    {
        self.entries.len()
    }

    /// The node of that number, if there is one.
    #[tactic(auto, using(crate::proofs::PlaceLemmas::node_at, crate::proofs::PlaceLemmas::home_at))]
    pub fn entry(&self, id: NodeId) -> Option<&Entry<B>>
        ensures node { option_map (λ e. e.now.node) result ≡ node_in self.now.nodes id }
        ensures home { IfSome result (λ e. slice_index_or self.now.home id.0 false ≡ e.now.home) }
        ensures nobody { IfNone result (slice_index_or self.now.home id.0 false ≡ false) }
    {
        match self.entries.get(id.0 as usize) {
            Some(Some(entry)) => Some(entry),
            Some(None) | None => None,
        }
    }

    /// A box that is at home has a node.
    pub fn soundness(&self)
        ensures homes { length self.now.home ≡ length self.now.nodes }
        ensures there { (id : NodeId) → slice_index_or self.now.home id.0 false ≡ true → IsSome (node_in self.now.nodes id) }
    {
        let _len = self.entries.len();
    }

    /// Adds a node, whose box is at home. There is room for it.
    #[tactic(auto, using(crate::proofs::PlaceLemmas::nodes_push, crate::proofs::PlaceLemmas::homes_push))]
    pub fn push(&mut self, entry: Entry<B>)
        requires room { 0 < self.old.room }
        requires home { entry.home ≡ true }
        ensures nodes { self.new.nodes ≡ self.old.nodes ++ Some entry.node ∷ [] }
        ensures home { self.new.home ≡ self.old.home ++ true ∷ [] }
        ensures room { self.new.room + 1 ≡ self.old.room }
    {
        self.entries.push_reserved(Some(entry));
        self.room -= 1;
    }

    /// Adds a hook to a node whose box is at home.
    ///
    /// # Errors
    /// `NoMemory` where memory ran out, and for nothing else; the node is then as before.
    #[tactic(auto, using(crate::proofs::PlaceLemmas::home_inside))]
    pub fn add(&mut self, alloc: Global, id: NodeId, hook: Hook) -> Result<(), NoMemory>
        requires home { slice_index_or self.old.home id.0 false ≡ true }
        requires takes { (node : NodeRecord) → node_in self.old.nodes id ≡ Some node → AcceptsHook node hook.name }
        ensures ok { OnOk result (self.new ≡ record self.old { nodes = change_at self.old.nodes id (λ node. with_hook node hook) }) }

        // Right after, the hook can be taken back.
        ensures linked { OnOk result (is_some (linked_hook_at (node_in self.new.nodes id) hook.name hook.link) ≡ true) }
        ensures undone { OnOk result (change_at self.new.nodes id (λ node. without_hook node hook.name) ≡ self.old.nodes) }
        ensures err { OnErr result (self.new ≡ self.old) }
    {
        match &mut self.entries[id.0 as usize] {
            Some(entry) => entry.add(alloc, hook),
            None => unreachable!(),
        }
    }

    /// Takes a hook away from a node whose box is at home, if it has that link: whether it has.
    #[tactic(auto, using(crate::proofs::PlaceLemmas::home_inside))]
    pub fn leave(&mut self, id: NodeId, name: &Name, link: LinkId) -> bool
        requires home { slice_index_or self.old.home id.0 false ≡ true }
        ensures answer { result ≡ is_some (linked_hook_at (node_in self.old.nodes id) name.now link) }
        ensures after { self.new ≡ (if result then record self.old { nodes = change_at self.old.nodes id (λ node. without_hook node name.now) } else self.old) }
    {
        match &mut self.entries[id.0 as usize] {
            Some(entry) => entry.leave(name, link),
            None => unreachable!(),
        }
    }

    /// Takes all hooks away from a node whose box is at home.
    #[tactic(auto, using(crate::proofs::PlaceLemmas::home_inside))]
    pub fn clear(&mut self, id: NodeId)
        requires home { slice_index_or self.old.home id.0 false ≡ true }
        ensures { self.new ≡ record self.old { nodes = change_at self.old.nodes id without_hooks } }
    {
        match &mut self.entries[id.0 as usize] {
            Some(entry) => entry.clear(),
            None => unreachable!(),
        }
    }

    /// The plan, shared, of a node that is there and has one. It is made where none was since the node last changed.
    ///
    /// # Errors
    /// `NoMemory` where memory ran out, or the plan is shared more often than can be counted.
    #[tactic(auto, using(crate::proofs::PlaceLemmas::there_inside))]
    pub fn plan(&mut self, alloc: Global, id: NodeId) -> Result<Arc<Plan>, NoMemory>
        requires there { IsSome (node_in self.old.nodes id) }
        requires planned { (node : NodeRecord) → node_in self.old.nodes id ≡ Some node → IsSome (way_of (state_of node)) }
        ensures plan { IfOk result (λ plan. (node : NodeRecord) → node_in self.old.nodes id ≡ Some node → way_of (state_of node) ≡ Some (arc_value plan)) }
        ensures same { self.new ≡ self.old }
    {
        match &mut self.entries[id.0 as usize] {
            Some(entry) => entry.plan(alloc),
            None => unreachable!(),
        }
    }

    /// Lets packets out of a hook of a node, if it has that link: whether it has.
    #[tactic(auto, using(crate::proofs::PlaceLemmas::there_inside))]
    pub fn settle(&mut self, id: NodeId, name: &Name, link: LinkId) -> bool
        requires there { IsSome (node_in self.old.nodes id) }
        ensures answer { result ≡ is_some (linked_hook_at (node_in self.old.nodes id) name.now link) }
        ensures after { self.new ≡ (if result then record self.old { nodes = change_at self.old.nodes id (λ node. with_changed_hook node name.now settle_hook) } else self.old) }
    {
        match &mut self.entries[id.0 as usize] {
            Some(entry) => entry.settle(name, link),
            None => unreachable!(),
        }
    }

    /// Gives a hook of a node another link and another peer, if it has the old link: whether it has.
    #[tactic(auto, using(crate::proofs::PlaceLemmas::there_inside))]
    pub fn rebind(&mut self, id: NodeId, name: &Name, old: LinkId, new: LinkId, peer: End) -> bool
        requires there { IsSome (node_in self.old.nodes id) }
        ensures answer { result ≡ is_some (linked_hook_at (node_in self.old.nodes id) name.now old) }
        ensures after { self.new ≡ (if result then record self.old { nodes = change_at self.old.nodes id (λ node. with_changed_hook node name.now (bind_to new peer.node peer.hook)) } else self.old) }
    {
        match &mut self.entries[id.0 as usize] {
            Some(entry) => entry.rebind(name, old, new, peer),
            None => unreachable!(),
        }
    }

    /// Gives a node a name.
    #[tactic(auto, using(crate::proofs::PlaceLemmas::there_inside))]
    pub fn rename(&mut self, id: NodeId, name: Name)
        requires there { IsSome (node_in self.old.nodes id) }
        ensures { self.new ≡ record self.old { nodes = change_at self.old.nodes id (λ node. record node { name = Some name }) } }
    {
        match &mut self.entries[id.0 as usize] {
            Some(entry) => entry.rename(name),
            None => unreachable!(),
        }
    }

    /// Hands out a box that is at home. Its node keeps its plan, if it has one, meanwhile.
    #[tactic(auto, using(crate::proofs::PlaceLemmas::home_inside))]
    pub fn lend(&mut self, id: NodeId, plan: Option<Arc<Plan>>) -> B
        requires home { slice_index_or self.old.home id.0 false ≡ true }
        requires planned { (node : NodeRecord) → node_in self.old.nodes id ≡ Some node → option_map arc_value plan ≡ way_of (state_of node) }
        ensures state { (node : NodeRecord) → node_in self.old.nodes id ≡ Some node → B.state result ≡ state_of node }
        ensures after { self.new ≡ record self.old { home = slice_set self.old.home id.0 false } }
    {
        match &mut self.entries[id.0 as usize] {
            Some(entry) => entry.lend(plan),
            None => unreachable!(),
        }
    }

    /// Brings a box home, in place of one that is there: one of the node's kind and with its hooks.
    #[tactic(auto, using(crate::proofs::PlaceLemmas::there_inside))]
    pub fn give(&mut self, id: NodeId, node: B)
        requires there { IsSome (node_in self.old.nodes id) }
        requires fits { (it : NodeRecord) → node_in self.old.nodes id ≡ Some it → FitsNode it (B.state node) }
        ensures { self.new ≡ record self.old { nodes = change_at self.old.nodes id (with_kept (B.state node).kept); home = slice_set self.old.home id.0 true } }
    {
        match &mut self.entries[id.0 as usize] {
            Some(entry) => entry.give(node),
            None => unreachable!(),
        }
    }

    /// Brings a box home as it went.
    #[tactic(auto, using(crate::proofs::PlaceLemmas::there_inside))]
    pub fn restore(&mut self, id: NodeId, node: B)
        requires there { IsSome (node_in self.old.nodes id) }
        requires same { (it : NodeRecord) → node_in self.old.nodes id ≡ Some it → B.state node ≡ state_of it }
        ensures { self.new ≡ record self.old { nodes = change_at self.old.nodes id (with_kept (B.state node).kept); home = slice_set self.old.home id.0 true } }
    {
        match &mut self.entries[id.0 as usize] {
            Some(entry) => entry.restore(node),
            None => unreachable!(),
        }
    }

    /// Adds what was counted to the counters of a node whose box is at home.
    #[tactic(auto, using(crate::proofs::PlaceLemmas::home_inside))]
    pub fn absorb(&mut self, id: NodeId, counts: &Counts)
        requires home { slice_index_or self.old.home id.0 false ≡ true }
        ensures { self.new ≡ record self.old { nodes = change_at self.old.nodes id (λ node. with_kept (absorb node.kept counts.now) node) } }
    {
        match &mut self.entries[id.0 as usize] {
            Some(entry) => entry.absorb(counts),
            None => unreachable!(),
        }
    }

    /// Takes a node out, whose box is at home: the box.
    pub fn retire(&mut self, id: NodeId) -> B
        requires home { slice_index_or self.old.home id.0 false ≡ true }
        ensures state { (node : NodeRecord) → node_in self.old.nodes id ≡ Some node → B.state result ≡ state_of node }
        ensures after { self.new ≡ record self.old { nodes = slice_set self.old.nodes id.0 None; home = slice_set self.old.home id.0 false } }
    {
        match mem::replace(&mut self.entries[id.0 as usize], None) {
            Some(entry) => entry.into_node(),
            None => unreachable!(),
        }
    }
}
