// How many nodes and hooks a graph has.
ghost use Rattle.std.specs.Prelude.{◌≡◌, ◌<◌, ◌≤◌, ◌^◌, is_some, if◌then◌else◌, length, Some};
ghost use Rattle.ng_machine.specs.Totals.{hook_total};
ghost use Rattle.ng_machine.specs.Words.{times};
ghost use Rattle.ng_machine.specs.World.{NodeRecord, node_in};
ghost use Rattle.ng_core.specs.Counting.{hook_count};

use ng_base::NodeId;
use ng_plan::node::Node;
use ng_topology::Graph;

// One, where the node of that number is there.
fn nodes_at<B: Node>(graph: &Graph<B>, id: NodeId) -> u64
    ensures { result ≡ (if is_some (node_in graph.now.nodes id) then 1 else 0) }
{
    match graph.kind(id) {
        Some(_) => 1,
        None => 0,
    }
}

/// How many nodes there are; their numbers are below `end`.
pub fn count_nodes<B: Node>(graph: &Graph<B>, end: u32) -> u64
    requires { length graph.now.nodes ≤ end }
    ensures { result ≡ times (λ node. is_some node) graph.now.nodes }
{
    let mut count = 0;
    for n in 0..end {
        count += nodes_at(graph, NodeId(n));
    }
    count
}

// How many hooks the node of that number has.
fn hooks_at<B: Node>(graph: &Graph<B>, id: NodeId) -> u64
    ensures { result ≡ hook_count (node_in graph.now.nodes id) }
{
    match graph.kind(id) {
        Some(_) => graph.hooks(id).len() as u64,
        None => 0,
    }
}

/// How many hooks there are, of nodes that have less than 2^24 each; the nodes' numbers are below `end`.
pub fn count_hooks<B: Node>(graph: &Graph<B>, end: u32) -> u64
    requires end { length graph.now.nodes ≤ end }
    requires few { (id : NodeId) (node : NodeRecord) → node_in graph.now.nodes id ≡ Some node → length node.hooks < 2 ^ 24 }
    ensures { result ≡ hook_total graph.now.nodes }
{
    let mut count = 0;
    for n in 0..end {
        count += hooks_at(graph, NodeId(n));
    }
    count
}
