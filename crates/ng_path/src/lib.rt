//! Addresses of nodes and hooks, as ngctl(8) and netgraph(4) write them: a node, a colon, and the
//! hooks along which one walks from there, joined by dots.
#![tactic(auto)]

mod cut;
mod fault;
mod hooks;
mod laws;
mod path;
mod reading;

pub use fault::PathFault;
pub use hooks::Hooks;
pub use laws::{one_fault, one_path, path_or_fault, reads_address};
pub use path::{Head, Path};
pub use reading::read_path;
