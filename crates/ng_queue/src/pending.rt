//! The items that wait, in the queues of their nodes, and the counts of the world: what a step of the machine does to both.
mod pending;

pub use pending::Pending;
