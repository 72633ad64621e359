//! What takes hooks and nodes away: a node's last hook, the order to take a hook away, and the order to shut down.
mod bypass;
mod drops;
mod ends;
mod going;
mod hooks;
mod peers;
mod retiring;
mod room;
mod shutdown;
mod staying;

pub use hooks::{apply_leave, apply_rmhook};
pub use shutdown::apply_shutdown;
