// A core is made.
ghost use Rattle.std.specs.Prelude.{◌≡◌, ℕ, ◌+◌, ◌<◌, ◌≤◌, All, [], ◌∷◌, true, length, map, replicate, Some, None, IfOk, OnOk};
ghost use Rattle.ng_machine.specs.LowRun.{most_budget, most_ports};
ghost use Rattle.ng_machine.specs.Run.{beginning};
ghost use Rattle.ng_machine.specs.State.{blank_of, kind_of};
ghost use Rattle.ng_machine.specs.Stock.{has_kind};
ghost use Rattle.ng_core.specs.Calls.{HasBoxes};
ghost use Rattle.ng_base.specs.Names.{are_different};
ghost use Rattle.ng_core.specs.Beginning.{begun_core, start_graph};
ghost use Rattle.ng_core_state.specs.Stands.{Stands, port_of};
ghost use Rattle.ng_machine.specs.World.{blank_node, blank_port, start_of};
ghost use Rattle.ng_topology.specs.Topology.{is_free, make_node};

use crate::Core;
use crate::machine::Parts;
use ng_base::{Kind, Name, NoMemory};
use ng_core_state::{Port, State};
use ng_journal::kept::Journal;
use ng_plan::node::Node;
use ng_queue::pending::Pending;
use ng_topology::{Graph, MakeFault};
use std::alloc::Global;

// The kinds of the boxes, in order.
fn kinds_of<B: Node>(alloc: Global, stock: &[B]) -> Result<Vec<Kind>, NoMemory>
    ensures { IfOk result (λ kinds. kinds.items ≡ map (λ b. kind_of (B.state b)) stock.now) }
{
    let mut kinds = Vec::new(alloc);
    for node in stock {
        kinds.push(node.kind())?;
    }
    Ok(kinds)
}

// Makes a node with this name out of a blank one that is there.
fn make_named<B: Node>(
    alloc: Global,
    graph: &mut Graph<B>,
    kind: Kind,
    name: Name,
) -> Result<(), NoMemory>
    requires free { is_free graph.old (Some name) ≡ true }
    requires there { has_kind graph.old.stock kind ≡ true }
    ensures { OnOk result (graph.new ≡ make_node graph.old kind (blank_node (Some name) kind)) }
{
    match graph.make(alloc, kind, Some(name)) {
        Ok(_) => Ok(()),
        Err(MakeFault::NoMemory) => Err(NoMemory),
        Err(MakeFault::Used) => unreachable!(),
    }
}

// A graph with the own node, and an ether for each port.
fn begin_graph<B: Node>(
    alloc: Global,
    own: Name,
    ports: &[Name],
    stock: Vec<B>,
) -> Result<Graph<B>, NoMemory>
    requires blank { All (λ b. B.state b ≡ blank_of (kind_of (B.state b))) stock.items }
    requires boxes { HasBoxes ports.now (map (λ b. kind_of (B.state b)) stock.items) }
    requires names { are_different (own ∷ ports.now) ≡ true }
    ensures { IfOk result (λ graph. graph ≡ start_graph own ports.now (map (λ b. kind_of (B.state b)) stock.items)) }
{
    let mut graph = Graph::new(alloc, stock)?;
    make_named(alloc, &mut graph, Kind::Socket, own)?;
    for port in ports {
        make_named(alloc, &mut graph, Kind::Ether, *port)?;
    }
    Ok(graph)
}

// So many ports at which nothing came or went yet.
fn begin_ports(alloc: Global, count: usize) -> Result<Vec<Port>, NoMemory>
    ensures { IfOk result (λ ports. map port_of ports.items ≡ replicate count blank_port) }
{
    let mut ports = Vec::new(alloc);
    for _ in 0..count {
        ports.push(Port {
            leaving: Vec::new(alloc),
            fed: 0,
            up: 0,
        })?;
    }
    Ok(ports)
}

// What stands for the world before any event.
fn begin_state<B: Node>(
    alloc: Global,
    own: Name,
    ports: &[Name],
    stock: Vec<B>,
) -> Result<State<B>, NoMemory>
    requires blank { All (λ b. B.state b ≡ blank_of (kind_of (B.state b))) stock.items }
    requires boxes { HasBoxes ports.now (map (λ b. kind_of (B.state b)) stock.items) }
    requires names { are_different (own ∷ ports.now) ≡ true }
    ensures { IfOk result (λ state. let kinds = map (λ b. kind_of (B.state b)) stock.items in
        Stands state (beginning (start_of own ports.now kinds))) }
{
    let pending = Pending::new(alloc, stock.len() + 1)?;
    let kept = begin_ports(alloc, ports.len())?;
    let graph = begin_graph(alloc, own, ports, stock)?;
    Ok(State {
        graph,
        pending,
        told: Vec::new(alloc),
        ports: kept,
    })
}

impl<B: Node> Core<B> {
    /// The world before any event: node 1 is a socket of the own name, and an ether for each port follows, in the order of the
    /// ports. The boxes are blank nodes of their kinds; `budget` items at most are applied, by `seats` seats.
    ///
    /// # Errors
    /// `NoMemory` where memory ran out, and for nothing else.
    pub fn new(
        alloc: Global,
        own: Name,
        ports: Vec<Name>,
        stock: Vec<B>,
        budget: u64,
        seats: u32,
    ) -> Result<Self, NoMemory>
        requires blank { All (λ b. B.state b ≡ blank_of (kind_of (B.state b))) stock.items }
        requires boxes { HasBoxes ports.items (map (λ b. kind_of (B.state b)) stock.items) }
        requires names { are_different (own ∷ ports.items) ≡ true }
        requires ports { length ports.items ≤ most_ports }
        requires budget { budget ≤ most_budget }
        requires seats { 0 < seats }
        ensures { IfOk result (λ core. core ≡ begun_core own ports.items (map (λ b. kind_of (B.state b)) stock.items) budget seats) }
    {
        let kinds = kinds_of(alloc, &stock)?;
        let state = begin_state(alloc, own, &ports, stock)?;
        let mut journal = Journal::new(alloc);
        journal.reserve(1)?;
        let gave_up = vec![in alloc; false; seats as usize]?;
        let parts = Parts {
            own,
            ports,
            stock: kinds,
            budget,
            seats,
            inputs: Vec::new(alloc),
            journal,
            gave_up,
            closed: None,
            state,
        };
        Ok(Core {
            parts: Box::new(alloc, parts)?,
        })
    }
}
