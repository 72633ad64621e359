// A packet that comes to a port.
use ng_base::{Packet, Stamp};

/// A packet that comes by the wire of a port.
#[derive(Drop)]
pub struct Arrival {
    /// The port, from 0.
    pub port: u32,
    /// The time at which the packet was seen.
    pub stamp: Stamp,
    /// Its bytes.
    pub packet: Packet,
}
