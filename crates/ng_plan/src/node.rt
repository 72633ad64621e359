//! What a node is to the layers above, and what the code of every type of node shares.
mod counters;
mod hook_list;
mod node;

pub use counters::absorb_rows;
pub use hook_list::HookList;
pub use node::Node;
