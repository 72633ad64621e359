// What a command does, once it is known where its address leads.
use ng_base::{Bytes, Errno, NodeId};
use ng_machine::Body;

/// What a command does.
#[derive(Drop)]
pub enum Decided {
    /// It is refused.
    Refuse {
        /// With this error,
        errno: Errno,
        /// and with these words.
        why: Bytes,
    },
    /// The usage is told.
    Help,
    /// Nothing.
    Nothing,
    /// An item is accepted at a node, where that is there.
    Accept {
        /// The node.
        to: NodeId,
        /// What the item brings.
        body: Body,
        /// The command that waits for it, where one does.
        tag: Option<u32>,
    },
}
