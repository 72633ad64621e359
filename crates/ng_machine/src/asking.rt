//! The generic messages of netgraph(4), which each node knows: read as orders, and the answers of those that ask, as
//! bytes.
mod answers;
mod order;

pub use answers::{MAX_NODES, MAX_TYPES, hook_list, name_list, node_info, type_list};
pub use order::{Order, PATH_LEN, read_order};
