// A gate that each item passes before its work.
use ng_base::{ItemId, NodeId};

/// What is asked between the take of an item and the work on it, while the state is not held.
pub trait Gate {
    /// Lets the item `item` to the node `node` pass. A gate may wait here.
    fn pass(&self, node: NodeId, item: ItemId);
}

/// A gate that lets everything pass at once.
#[derive(Clone, Copy, Debug, Default, PartialEq, Eq)]
pub struct OpenGate;

impl Gate for OpenGate {
    fn pass(&self, _node: NodeId, _item: ItemId) {}
}
