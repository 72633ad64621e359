// A packet on its way.
ghost use Rattle.std.specs.Prelude.{◌≡◌, ℕ};
ghost use Rattle.ng_machine.specs.Spread.{fed_flight};
ghost use Rattle.ng_machine.specs.World.{port_node};

use ng_base::{LinkId, NodeId, Packet};
use ng_machine::Door;
use std::marker::Model;

/// A packet on its way: the node that it comes to, by which door, and over which link. A contract sees it so.
#[derive(Drop)]
pub struct Flight {
    pub(super) to: NodeId,
    pub(super) door: Door,
    pub(super) link: Option<LinkId>,
    pub(super) packet: Packet,
    // Where its hook is looked for first, among the hooks of the node that it comes to.
    pub(super) near: usize,
}

impl Model for Flight {
    ghost use Rattle.ng_machine.specs.Spread.{Flight};

    ghost Value = { Flight };

    ghost view = { λ f. record { to = f.to; door = f.door; link = f.link; packet = f.packet } };
}

impl Flight {
    /// A packet that comes by the wire of a port, whose node this is.
    pub fn fed(to: NodeId, packet: Packet) -> Flight
        ensures { (port : ℕ) → to ≡ port_node port → result ≡ fed_flight port packet }
    {
        Flight {
            to,
            door: Door::Wire,
            link: None,
            packet,
            near: 0,
        }
    }
}
