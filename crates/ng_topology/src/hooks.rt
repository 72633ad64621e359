//! The hooks of a node, in the order in which they were made, each found by its name.
mod hooks;

pub use hooks::Hooks;
