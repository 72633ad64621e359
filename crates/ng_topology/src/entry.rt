// A node as the graph holds it.
ghost use Rattle.std.specs.Prelude.{◌≡◌, true, false, if◌then◌else◌, map, find, is_some, IsSome, IfOk, IfSome, OnOk, OnErr, Some, None, Err};
ghost use Rattle.std.specs.Arc.{arc_value};
ghost use Rattle.std.specs.Option.{option_map, option_copied};
ghost use Rattle.ng_machine.specs.Errors.{eexist};
ghost use Rattle.ng_machine.specs.Case.{absorb};
ghost use Rattle.ng_machine.specs.Rules.{may_of};
ghost use Rattle.ng_machine.specs.State.{State, kind_of, blank_of, way_of};
ghost use Rattle.ng_machine.specs.World.{is_named, linked_hook, kind_at, state_of, has_hook, hook_of, with_hook, without_hook, without_hooks, with_changed_hook, settle_hook, bind_to, blank_node};
ghost use Rattle.ng_topology.specs.hooks.Hooks.{NamesDiffer, count_joined};
ghost use Rattle.ng_topology.specs.NodeEntry.{AcceptsHook, entry_as, with_node, without_all};
ghost use Rattle.ng_topology.specs.Topology.{FitsNode, with_kept};

use crate::hooks::Hooks;
use ng_base::{Errno, Kind, LinkId, Name, NoMemory};
use ng_machine::{Counts, End, Hook};
use ng_plan::Plan;
use ng_plan::node::Node;
use std::alloc::Global;
use std::marker::Model;
use std::snapshot::Snapshot;
use std::sync::Arc;

/// A node, its name and its hooks, with its box while that is at home, and its plan: where one was made since the node last
/// changed, and always while the box is lent. A one2many has none.
///
/// A contract sees the node as the machine's world has it, and whether the box is at home. While it is lent the node
/// keeps what the box kept when it went.
#[derive(Drop)]
pub struct Entry<B: Node> {
    kind: Kind,
    name: Option<Name>,
    hooks: Hooks,
    home: Option<B>,
    // The box as it was when it was lent.
    was: Snapshot<B>,
    plan: Option<Arc<Plan>>,
}

impl<B: Node> Model for Entry<B> {
    ghost use Rattle.std.specs.Prelude.{is_some};
    ghost use Rattle.std.specs.Arc.{arc_value};
    ghost use Rattle.std.specs.Option.{option_map};
    ghost use Rattle.ng_topology.specs.NodeEntry.{NodeEntry, IsConsistent, entry_as, state_in};

    ghost Value = { NodeEntry };

    ghost view = { λ e. entry_as e.name (state_in B.state e.home e.was.value) e.hooks (is_some e.home) };

    ghost invariant = { λ e. IsConsistent e.kind (state_in B.state e.home e.was.value) e.hooks (is_some e.home) (option_map arc_value e.plan) };
}

// Cuts the hooks of a box, one after another: these are all that it has.
fn cut_all<B: Node>(node: &mut B, hooks: &[Hook])
    requires names { map (λ h. h.name) hooks.now ≡ (B.state node.old).hooks }
    requires differ { NamesDiffer hooks.now }
    ensures { B.state node.new ≡ without_all (B.state node.old) }
{
    for hook in hooks {
        node.cut(&hook.name);
    }
}

impl<B: Node> Entry<B> {
    /// A blank node of the kind, with a name or without.
    #[tactic(auto, using(crate::proofs::StockLemmas::blank_kind))]
    pub fn blank(alloc: Global, name: Option<Name>, node: B, kind: Kind) -> Self
        requires blank { B.state node ≡ blank_of kind }
        ensures { result ≡ record { node = blank_node name kind; home = true } }
    {
        let was = Snapshot::of(&node);
        Entry {
            kind,
            name,
            hooks: Hooks::new(alloc),
            home: Some(node),
            was,
            plan: None,
        }
    }

    /// A node of the kind without a name, with its hooks.
    pub fn with_hooks(kind: Kind, hooks: Hooks, node: B) -> Self
        requires kind { kind_of (B.state node) ≡ kind }
        requires hooks { map (λ h. h.name) hooks ≡ (B.state node).hooks }
        ensures { result ≡ entry_as None (B.state node) hooks true }
    {
        let was = Snapshot::of(&node);
        Entry {
            kind,
            name: None,
            hooks,
            home: Some(node),
            was,
            plan: None,
        }
    }

    /// The type of the node.
    pub fn kind(&self) -> Kind
        ensures { result ≡ kind_at self.now.node }
    {
        self.kind
    }

    /// The name of the node, if it has one.
    pub fn name(&self) -> Option<&Name>
        ensures { option_copied result ≡ self.now.node.name }
    {
        self.name.as_ref()
    }

    /// The hooks, in the order in which they were made.
    pub fn hooks(&self) -> &[Hook]
        ensures { result.now ≡ self.now.node.hooks }
    {
        self.hooks.as_slice()
    }

    /// How many of the hooks are joined.
    pub fn joined(&self) -> usize
        ensures { result ≡ count_joined self.now.node.hooks }
    {
        self.hooks.joined()
    }

    /// The hook of that name, if there is one.
    pub fn hook(&self, name: &Name) -> Option<&Hook>
        ensures { option_copied result ≡ hook_of self.now.node name.now }
    {
        self.hooks.find(name)
    }

    /// The hook of that name, if there is one, which is looked for at a place and at the next one first.
    pub fn hook_near(&self, name: &Name, near: usize) -> Option<&Hook>
        ensures { option_copied result ≡ hook_of self.now.node name.now }
    {
        self.hooks.find_near(name, near)
    }

    /// Whether the box is at home.
    pub fn is_home(&self) -> bool
        ensures { result ≡ self.now.home }
    {
        self.home.is_some()
    }

    /// The box, which is at home.
    pub fn node(&self) -> &B
        requires { self.now.home ≡ true }
        ensures { B.state result.now ≡ state_of self.now.node }
    {
        match &self.home {
            Some(node) => node,
            None => unreachable!(),
        }
    }

    /// Whether the node may get a hook of that name. Its box is at home.
    ///
    /// # Errors
    /// `EEXIST` where the hook is there, else `EINVAL` where the type doesn't take the name.
    pub fn may(&self, hook: &Name) -> Result<(), Errno>
        requires { self.now.home ≡ true }
        ensures { result ≡ (if has_hook self.now.node hook.now then Err eexist else may_of (kind_at self.now.node) hook.now) }
    {
        if self.hooks.find(hook).is_some() {
            return Err(Errno::EXIST);
        }
        match &self.home {
            Some(node) => node.may(hook),
            None => unreachable!(),
        }
    }

    // The plan is made, where none was since the node last changed.
    fn make_plan(&mut self, alloc: Global) -> Result<Arc<Plan>, NoMemory>
        requires home { self.old.home ≡ true }
        requires planned { IsSome (way_of (state_of self.old.node)) }
        ensures plan { IfOk result (λ plan. way_of (state_of self.old.node) ≡ Some (arc_value plan)) }
        ensures same { self.new ≡ self.old }
    {
        let Some(node) = &self.home else {
            unreachable!()
        };
        let Some(plan) = node.plan(alloc)? else {
            unreachable!()
        };
        self.plan = Some(Arc::try_clone(&plan)?);
        Ok(plan)
    }

    /// The plan, shared, of a node that has one. It is made where none was since the node last changed.
    ///
    /// # Errors
    /// `NoMemory` where memory ran out, or the plan is shared more often than can be counted; the node is as before in any case.
    pub fn plan(&mut self, alloc: Global) -> Result<Arc<Plan>, NoMemory>
        requires planned { IsSome (way_of (state_of self.old.node)) }
        ensures plan { IfOk result (λ plan. way_of (state_of self.old.node) ≡ Some (arc_value plan)) }
        ensures same { self.new ≡ self.old }
    {
        match &self.plan {
            Some(plan) => Ok(Arc::try_clone(plan)?),
            None => self.make_plan(alloc),
        }
    }

    /// The plan, shared, of a node that has one, and none of a one2many. Where none was made since the node last changed, one is
    /// made, and the node doesn't keep it.
    ///
    /// # Errors
    /// `NoMemory` where memory ran out, or the plan is shared more often than can be counted.
    pub fn share_plan(&self, alloc: Global) -> Result<Option<Arc<Plan>>, NoMemory>
        ensures { IfOk result (λ plan. option_map arc_value plan ≡ way_of (state_of self.now.node)) }
    {
        match (&self.plan, &self.home) {
            (Some(plan), _) => Ok(Some(Arc::try_clone(plan)?)),
            (None, Some(node)) => node.plan(alloc),
            (None, None) => Ok(None),
        }
    }

    /// The plan, to be looked at, where one was made since the node last changed.
    pub fn peek_plan(&self) -> Option<&Plan>
        ensures { IfSome result (λ plan. way_of (state_of self.now.node) ≡ Some plan.now) }
    {
        match &self.plan {
            Some(plan) => Some(plan),
            None => None,
        }
    }

    /// Adds a hook that the type takes and the node lacks. Its box is at home.
    ///
    /// # Errors
    /// `NoMemory` where memory ran out, and for nothing else; the node is then as before.
    #[tactic(auto, using(crate::proofs::hooks::HookLemmas::added_removed, crate::proofs::NodeLemmas::lacks_hook, crate::proofs::NodeLemmas::lacks_names, crate::proofs::NodeLemmas::takes_may, crate::proofs::NodeLemmas::names_push))]
    pub fn add(&mut self, alloc: Global, hook: Hook) -> Result<(), NoMemory>
        requires home { self.old.home ≡ true }
        requires takes { AcceptsHook self.old.node hook.name }
        ensures ok { OnOk result (self.new ≡ with_node self.old (with_hook self.old.node hook)) }
        ensures undone { OnOk result (without_hook (with_hook self.old.node hook) hook.name ≡ self.old.node) }
        ensures err { OnErr result (self.new ≡ self.old) }
    {
        let Some(node) = &mut self.home else {
            unreachable!()
        };
        self.hooks.push(hook)?;
        match node.newhook(alloc, &hook.name) {
            Ok(()) => {
                self.plan = None;
                Ok(())
            }
            Err(why) => {
                self.hooks.remove(&hook.name);
                Err(why)
            }
        }
    }

    /// Whether there is a hook of that name with that link.
    pub fn has_link(&self, name: &Name, link: LinkId) -> bool
        ensures { result ≡ is_some (linked_hook self.now.node name.now link) }
    {
        self.hooks.is_linked(name, link)
    }

    /// Takes the hook of that name away, if there is one with that link: whether there was. Its box is at home.
    #[tactic(auto, using(crate::proofs::NodeLemmas::linked_has, crate::proofs::NodeLemmas::names_without))]
    pub fn leave(&mut self, name: &Name, link: LinkId) -> bool
        requires home { self.old.home ≡ true }
        ensures answer { result ≡ is_some (linked_hook self.old.node name.now link) }
        ensures after { self.new ≡ (if result then with_node self.old (without_hook self.old.node name.now) else self.old) }
    {
        let is_linked = self.hooks.is_linked(name, link);
        if is_linked {
            let Some(node) = &mut self.home else {
                unreachable!()
            };
            node.cut(name);
            self.hooks.remove(name);
            self.plan = None;
        }
        is_linked
    }

    /// Takes all hooks away. Its box is at home.
    pub fn clear(&mut self)
        requires home { self.old.home ≡ true }
        ensures { self.new ≡ with_node self.old (without_hooks self.old.node) }
    {
        let Some(node) = &mut self.home else {
            unreachable!()
        };
        cut_all(node, self.hooks.as_slice());
        self.hooks.clear();
        self.plan = None;
    }

    /// Lets packets out of the hook of that name, if there is one with that link: whether there was.
    #[tactic(auto, using(crate::proofs::NodeLemmas::names_settle))]
    pub fn settle(&mut self, name: &Name, link: LinkId) -> bool
        ensures answer { result ≡ is_some (linked_hook self.old.node name.now link) }
        ensures after { self.new ≡ (if result then with_node self.old (with_changed_hook self.old.node name.now settle_hook) else self.old) }
    {
        let is_linked = self.hooks.is_linked(name, link);
        if is_linked {
            self.hooks.settle(name);
        }
        is_linked
    }

    /// Gives the hook of that name another link and another peer, if there is one with that link: whether there was.
    #[tactic(auto, using(crate::proofs::NodeLemmas::names_bind))]
    pub fn rebind(&mut self, name: &Name, old: LinkId, new: LinkId, peer: End) -> bool
        ensures answer { result ≡ is_some (linked_hook self.old.node name.now old) }
        ensures after { self.new ≡ (if result then with_node self.old (with_changed_hook self.old.node name.now (bind_to new peer.node peer.hook)) else self.old) }
    {
        let is_linked = self.hooks.is_linked(name, old);
        if is_linked {
            self.hooks.bind(name, new, peer);
        }
        is_linked
    }

    /// Gives the node a name.
    pub fn rename(&mut self, name: Name)
        ensures { self.new ≡ with_node self.old (record (self.old.node) { name = Some name }) }
    {
        self.name = Some(name);
    }

    /// Hands out the box, which is then lent. The node keeps its plan, if it has one, meanwhile.
    pub fn lend(&mut self, plan: Option<Arc<Plan>>) -> B
        requires home { self.old.home ≡ true }
        requires planned { option_map arc_value plan ≡ way_of (state_of self.old.node) }
        ensures state { B.state result ≡ state_of self.old.node }
        ensures after { self.new ≡ record self.old { home = false } }
    {
        match self.home.take() {
            Some(node) => {
                self.was = Snapshot::of(&node);
                self.plan = plan;
                node
            }
            None => unreachable!(),
        }
    }

    /// Brings a box home, in place of one that is there: one of the node's kind and with its hooks.
    pub fn give(&mut self, node: B)
        requires fits { FitsNode self.old.node (B.state node) }
        ensures { self.new ≡ record { node = with_kept (B.state node).kept self.old.node; home = true } }
    {
        self.home = Some(node);
        self.plan = None;
    }

    /// Brings the box home as it went: the node keeps its plan.
    pub fn restore(&mut self, node: B)
        requires same { B.state node ≡ state_of self.old.node }
        ensures { self.new ≡ record { node = with_kept (B.state node).kept self.old.node; home = true } }
    {
        self.home = Some(node);
    }

    /// Adds what was counted to the counters of the box, which is at home. The node keeps its plan.
    pub fn absorb(&mut self, counts: &Counts)
        requires home { self.old.home ≡ true }
        ensures { self.new ≡ with_node self.old (with_kept (absorb self.old.node.kept counts.now) self.old.node) }
    {
        let Some(node) = &mut self.home else {
            unreachable!()
        };
        node.absorb(counts);
    }

    /// The box, which is at home.
    pub fn into_node(self) -> B
        requires { self.home ≡ true }
        ensures { B.state result ≡ state_of self.node }
    {
        let Entry { home, .. } = self;
        match home {
            Some(node) => node,
            None => unreachable!(),
        }
    }
}
