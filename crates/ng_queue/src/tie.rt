//! The tie of the queues of all nodes to the one list of pending items that the machine has. Laws alone.
mod laws;

pub use laws::{
    back_ties, counts_leave, done_ties, least_is_next, purge_ties, push_ties, take_ties,
};
