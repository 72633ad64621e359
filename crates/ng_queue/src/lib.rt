//! What waits: a node's queue of the items that were accepted and are not applied yet, some of them taken to be worked on;
//! the queues of all nodes, with the least item that can be taken; and the counts of what waits and passed.
//!
//! netgraph(4), "Netgraph in SMP": a node works on readers beside each other, and on a writer alone. An item is
//! taken only where nothing before it waits.
#![tactic(auto)]

mod boxed;
mod entry;
mod laws;
pub mod pending;
mod queue;
mod queues;
mod ready;
mod scan;
pub mod tally;
pub mod tie;

pub use boxed::{BoxedItem, Slot};
pub use entry::{Entry, Hold, Mark};
pub use laws::{free_is_takeable, takeable_is_free};
pub use queue::NodeQueue;
pub use queues::Queues;
