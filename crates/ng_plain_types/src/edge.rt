//! The types of nodes at the edges of a graph: ether, a port to the outside, and socket, which the commands come from.
mod ether;
mod settings;
mod socket;

pub use ether::{EtherNode, blank_ether};
pub use socket::{SocketNode, blank_socket};
