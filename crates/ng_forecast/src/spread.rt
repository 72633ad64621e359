//! Where the copies of a packet leave a graph that stands still: the packet is followed from node to node.
mod fate;
mod flight;
mod following;

pub use fate::{Fate, find_fate};
pub use flight::Flight;
pub use following::{Followed, Trail, follow};
