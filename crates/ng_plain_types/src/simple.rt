//! The types of nodes that keep next to nothing: hub, hole, echo and split.
mod echo;
mod hole;
mod hub;
mod split;

pub use echo::{EchoNode, blank_echo};
pub use hole::{HoleNode, blank_hole};
pub use hub::{HubNode, blank_hub};
pub use split::{SplitNode, blank_split};
