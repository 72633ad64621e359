//! What an outcome does: the packet that a node's plan was evaluated for, and the writer that a node's box worked on.
mod conclusion;
mod delivery;
mod emptying;
mod follower;
mod leaving;
mod own;
mod parts;
mod reading;
mod room;
mod serving;
mod writing;

pub use own::apply_own;
pub use reading::apply_read;
pub use serving::{evaluate, serve};
pub use writing::apply_write;
