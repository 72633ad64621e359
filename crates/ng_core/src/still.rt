// A core's world while it stands still.
ghost use Rattle.std.specs.Prelude.{◌≡◌, ◌≤◌, length, is_some, map, IfOk};
ghost use Rattle.std.specs.Arc.{arc_value};
ghost use Rattle.std.specs.Option.{option_map, option_copied};
ghost use Rattle.ng_machine.specs.World.{node_in, kind_at, hook_at};
ghost use Rattle.ng_topology.specs.Topology.{linked_hook_at};
ghost use Rattle.ng_core.specs.CoreStory.{story};
ghost use Rattle.ng_core.specs.Planned.{HasPlans};
ghost use Rattle.ng_core.specs.StillWorld.{still_world, way_at, node_of_port};
ghost use Rattle.ng_machine.specs.story.Story.{world_of};

use crate::Core;
use ng_base::{Kind, LinkId, Name, NoMemory, NodeId};
use ng_machine::Hook;
use ng_plan::Plan;
use ng_plan::node::Node;
use ng_topology::Graph;
use std::alloc::Global;
use std::marker::Model;
use std::sync::Arc;

// Nodes have numbers below it.
const MAX_NODES: usize = 1 << 24;

// The node of the port 0; those of the other ports follow.
const FIRST_PORT: u32 = 2;

/// The nodes of a core's world, with their hooks and plans, as they stand. The core is borrowed, so nothing of it changes. No call
/// takes memory, and none can be refused.
///
/// A contract sees the nodes of the world, and how many ports there are.
#[derive(Drop)]
pub struct Still<'a, B: Node> {
    graph: &'a Graph<B>,
    // By the numbers of nodes; none where there is no node, and of a one2many.
    plans: Vec<Option<Arc<Plan>>>,
    ports: u32,
}

impl<'a, B: Node> Model for Still<'a, B> {
    ghost use Rattle.std.specs.Prelude.{map};
    ghost use Rattle.std.specs.Arc.{arc_value};
    ghost use Rattle.std.specs.Option.{option_map};
    ghost use Rattle.ng_core.specs.Planned.{IsPlanned};
    ghost use Rattle.ng_core.specs.StillWorld.{StillWorld};

    ghost Value = { StillWorld };

    ghost view = { λ s. record { nodes = s.graph.now.nodes; ports = s.ports } };

    ghost invariant = { λ s. IsPlanned (record { nodes = s.graph.now.nodes; ports = s.ports }) (map (λ p. option_map arc_value p) s.plans.items) };
}

impl<'a, B: Node> Still<'a, B> {
    /// The type of the node of that number: none exactly where there is no such node.
    pub fn kind(&self, id: NodeId) -> Option<Kind>
        ensures { result ≡ option_map kind_at (node_in self.now.nodes id) }
    {
        self.graph.kind(id)
    }

    /// The hook of that name at the node of that number: none exactly where that node or its hook isn't there. It is looked for
    /// at a place among the node's hooks and at the next one first, so whoever asks for hooks in their order finds each at once.
    pub fn hook_near(&self, id: NodeId, name: &Name, near: usize) -> Option<&Hook>
        ensures { option_copied result ≡ hook_at (node_in self.now.nodes id) name.now }
    {
        self.graph.peer_near(id, name, near)
    }

    /// Whether the node of that number is there, and its hook of that name has that link.
    pub fn has_link(&self, id: NodeId, name: &Name, link: LinkId) -> bool
        ensures { result ≡ is_some (linked_hook_at (node_in self.now.nodes id) name.now link) }
    {
        self.graph.has_link(id, name, link)
    }

    /// The plan of the node of that number: none exactly where there is no such node, or it is a one2many.
    pub fn plan(&self, id: NodeId) -> Option<&Plan>
        ensures { option_map (λ plan. plan.now) result ≡ way_at (node_in self.now.nodes id) }
    {
        match self.plans.get(id.0 as usize) {
            Some(Some(plan)) => Some(plan),
            Some(None) | None => None,
        }
    }

    /// The node of the port of that number, from 0: none exactly where there is no such port.
    pub fn port(&self, port: u32) -> Option<NodeId>
        ensures { result ≡ node_of_port self.now port }
    {
        if port < self.ports {
            Some(NodeId(port + FIRST_PORT))
        } else {
            None
        }
    }
}

// The plan of the node of that number, where it is there and has one.
fn plan_at<B: Node>(
    alloc: Global,
    graph: &Graph<B>,
    id: NodeId,
) -> Result<Option<Arc<Plan>>, NoMemory>
    ensures { IfOk result (λ plan. option_map arc_value plan ≡ way_at (node_in graph.now.nodes id)) }
{
    match graph.kind(id) {
        None => Ok(None),
        Some(_) => graph.share_plan(alloc, id),
    }
}

// The plans of all nodes, whose numbers are below `end`.
fn plans_of<B: Node>(
    alloc: Global,
    graph: &Graph<B>,
    end: u32,
) -> Result<Vec<Option<Arc<Plan>>>, NoMemory>
    requires { length graph.now.nodes ≤ end }
    ensures { IfOk result (λ plans. HasPlans graph.now.nodes (map (λ p. option_map arc_value p) plans.items)) }
{
    let mut plans = Vec::new(alloc);
    for n in 0..end {
        plans.push(plan_at(alloc, graph, NodeId(n))?)?;
    }
    Ok(plans)
}

impl<B: Node> Core<B> {
    /// The world as it stands, to be looked at. Items may be pending or taken: a node that is lent is seen as it was before.
    ///
    /// # Errors
    /// `NoMemory` where memory ran out, and for nothing else.
    pub fn still(&self, alloc: Global) -> Result<Still<'_, B>, NoMemory>
        ensures { IfOk result (λ still. still ≡ still_world (world_of (story self.now))) }
    {
        let state = &self.parts.state;
        let graph = &state.graph;
        let end = state.pending.queues.len().min(MAX_NODES) as u32;
        let plans = plans_of(alloc, graph, end)?;
        Ok(Still {
            graph,
            plans,
            ports: state.ports.len() as u32,
        })
    }
}
