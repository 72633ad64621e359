// What is kept of a world.
use ng_base::{Packet, Stamp};
use ng_machine::Told;
use ng_plan::node::Node;
use ng_queue::pending::Pending;
use ng_topology::Graph;

/// A port: the packets that left by its wire, with their times, how many were fed, and how many were handed to the host.
#[derive(Drop)]
pub struct Port {
    /// The packets that left, in order.
    pub leaving: Vec<(Stamp, Packet)>,
    /// Packets that were fed.
    pub fed: u64,
    /// Packets that were handed to the host.
    pub up: u64,
}

/// The machine's world as it is kept.
#[derive(Drop)]
pub struct State<B: Node> {
    /// The nodes, their boxes and plans, and the blank boxes that are left.
    pub graph: Graph<B>,
    /// What waits, and the counts.
    pub pending: Pending,
    /// What was told, in order.
    pub told: Vec<Told>,
    /// The ports, in their order.
    pub ports: Vec<Port>,
}
