// A graph between its steps, each of which asks first whether it may be done.
ghost use Rattle.std.specs.Prelude.{◌≡◌, ◌≤◌, All, length, true};
ghost use Rattle.ng_machine.specs.State.{blank_of, kind_of};
ghost use Rattle.ng_topology.specs.Topology.{IsThere};

use ng_base::{Errno, Kind, LinkId, Name, NodeId};
use ng_machine::{End, Hook};
use ng_path::read_path;
use ng_plan::node::Node;
use ng_topology::Graph;
use std::alloc::Global;
use std::marker::Model;
use std::test::Fail;

/// The most links of an example.
const MAX_LINKS: u32 = 1_000;

/// A graph whose boxes are all at home.
#[derive(Drop)]
pub(super) struct GraphAtRest<B: Node> {
    graph: Graph<B>,
    // How many links were made.
    links: u32,
}

impl<B: Node> Model for GraphAtRest<B> {
    ghost use Rattle.ng_node_tests.specs.graphs.Rest.{IsAtRest};
    ghost use Rattle.ng_topology.specs.Topology.{Topology};

    ghost Value = { Topology };

    ghost view = { λ g. g.graph };

    ghost invariant = { λ g. IsAtRest g.graph g.links };
}

// Whether the node of that number is there.
#[tactic(auto, using(crate::proofs::graphs::AtRest::is_there))]
fn is_there<B: Node>(graph: &Graph<B>, id: NodeId) -> bool
    ensures { result ≡ true → IsThere graph.now id }
{
    graph.kind(id).is_some()
}

impl<B: Node> GraphAtRest<B> {
    /// No nodes, and blank boxes to make them of.
    #[tactic(auto, using(crate::proofs::graphs::AtRest::begun))]
    pub(super) fn new(alloc: Global, stock: Vec<B>) -> Result<Self, Fail>
        requires few { length stock.items ≤ 1000 }
        requires blank { All (λ b. B.state b ≡ blank_of (kind_of (B.state b))) stock.items }
    {
        let graph = Graph::new(alloc, stock)?;
        Ok(GraphAtRest { graph, links: 0 })
    }

    /// The type of the node of that number, if there is one.
    pub(super) fn kind(&self, id: NodeId) -> Option<Kind> {
        self.graph.kind(id)
    }

    /// The node of that name, if there is one.
    pub(super) fn named(&self, name: &[u8]) -> Result<Option<NodeId>, Fail> {
        Ok(self.graph.named(&Name::read(name)?))
    }

    /// The node that a path leads to, from a node.
    pub(super) fn walk(&self, from: NodeId, path: &[u8]) -> Result<Option<NodeId>, Fail> {
        Ok(self.graph.walk(from, &read_path(path)?))
    }

    /// The hooks of a node, if it is there.
    pub(super) fn hooks(&self, id: NodeId) -> Option<&[Hook]> {
        if !is_there(&self.graph, id) {
            return None;
        }
        Some(self.graph.hooks(id))
    }

    /// Whether a node may get a hook.
    pub(super) fn may(&self, at: &End) -> Result<(), Errno> {
        if !is_there(&self.graph, at.node) {
            return Err(Errno::NOENT);
        }
        self.graph.may(at.node, &at.hook)
    }

    /// A node of a name that none has.
    #[tactic(auto, using(crate::proofs::graphs::AtRest::made))]
    pub(super) fn make(&mut self, alloc: Global, kind: Kind, name: &[u8]) -> Result<NodeId, Fail> {
        let name = Name::read(name)?;
        if self.graph.named(&name).is_some() {
            return Err(Errno::ADDRINUSE)?;
        }
        self.graph.soundness();
        let id = self.graph.make(alloc, kind, Some(name))?;
        Ok(id)
    }

    /// A node without a name at the other end of a new hook.
    #[tactic(auto, using(crate::proofs::graphs::AtRest::sprouted))]
    pub(super) fn sprout(
        &mut self,
        alloc: Global,
        at: &End,
        kind: Kind,
        hook: &[u8],
    ) -> Result<NodeId, Fail> {
        let hook = Name::read(hook)?;
        if !is_there(&self.graph, at.node) {
            return Err(Errno::NOENT)?;
        }
        if self.links >= MAX_LINKS {
            return Err(Errno::NFILE)?;
        }
        self.graph.may(at.node, &at.hook)?;
        self.graph.blank_may(kind, &hook)?;
        self.graph.soundness();
        let id = self.graph.sprout(alloc, at, kind, &hook)?;
        self.links += 1;
        Ok(id)
    }

    /// A name, which no node has, for a node without one.
    #[tactic(auto, using(crate::proofs::graphs::AtRest::changed))]
    pub(super) fn rename(&mut self, alloc: Global, id: NodeId, name: &[u8]) -> Result<(), Fail> {
        let name = Name::read(name)?;
        if !is_there(&self.graph, id) {
            return Err(Errno::NOENT)?;
        }
        if self.graph.named(&name).is_some() {
            return Err(Errno::ADDRINUSE)?;
        }
        if self.graph.name(id).is_some() {
            return Err(Errno::ISCONN)?;
        }
        self.graph.rename(alloc, id, name)?;
        Ok(())
    }

    /// The first end of a link, not joined yet.
    #[tactic(auto, using(crate::proofs::graphs::AtRest::half_added))]
    pub(super) fn add_half(&mut self, alloc: Global, at: &End, to: &End) -> Result<LinkId, Fail> {
        if !is_there(&self.graph, at.node) {
            return Err(Errno::NOENT)?;
        }
        if self.links >= MAX_LINKS {
            return Err(Errno::NFILE)?;
        }
        self.graph.may(at.node, &at.hook)?;
        let link = self.graph.add_half(alloc, at, to)?;
        self.links += 1;
        Ok(link)
    }

    /// The second end of a link, which is joined.
    #[tactic(auto, using(crate::proofs::graphs::AtRest::changed))]
    pub(super) fn join(
        &mut self,
        alloc: Global,
        at: &End,
        link: LinkId,
        to: &End,
    ) -> Result<(), Fail> {
        if !is_there(&self.graph, at.node) {
            return Err(Errno::NOENT)?;
        }
        self.graph.may(at.node, &at.hook)?;
        self.graph.join(alloc, at, link, to)?;
        Ok(())
    }

    /// Joins the hook of an end, where it has that link: whether it has.
    #[tactic(auto, using(crate::proofs::graphs::AtRest::changed_if))]
    pub(super) fn settle(&mut self, at: &End, link: LinkId) -> bool {
        if !is_there(&self.graph, at.node) {
            return false;
        }
        self.graph.settle(at, link)
    }

    /// Takes the hook of an end away, where it has that link: whether it has.
    #[tactic(auto, using(crate::proofs::graphs::AtRest::changed_if))]
    pub(super) fn leave(&mut self, at: &End, link: LinkId) -> bool {
        if !is_there(&self.graph, at.node) {
            return false;
        }
        self.graph.leave(at, link)
    }

    /// Hands a node's box out and takes it back.
    #[tactic(auto, using(crate::proofs::graphs::AtRest::given))]
    pub(super) fn lend_and_give(&mut self, alloc: Global, id: NodeId) -> Result<(), Fail> {
        if !is_there(&self.graph, id) {
            return Err(Errno::NOENT)?;
        }
        let plan = self.graph.share_plan(alloc, id)?;
        let node = self.graph.lend(id, plan);
        self.graph.give(id, node);
        Ok(())
    }

    /// Has a node's plan made, and looks at it: whether there is one then.
    pub(super) fn plan(&mut self, alloc: Global, id: NodeId) -> Result<bool, Fail> {
        match self.graph.kind(id) {
            Some(Kind::One2many) | None => Ok(false),
            Some(_) => {
                let _plan = self.graph.plan(alloc, id)?;
                Ok(self.graph.peek_plan(id).is_some())
            }
        }
    }

    /// Removes a node with its hooks: whether it was there.
    #[tactic(auto, using(crate::proofs::graphs::AtRest::retired))]
    pub(super) fn retire(&mut self, id: NodeId) -> bool {
        if !is_there(&self.graph, id) {
            return false;
        }
        self.graph.soundness();
        let _node = self.graph.retire(id);
        true
    }
}
