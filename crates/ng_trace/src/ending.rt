// Where an item is, and how it ended there.
use ng_base::{Cause, Errno, ItemId, Kind, Name, NodeId};
use ng_machine::Door;

/// How an item ended at a node, or a copy of a packet that was made of it.
#[derive(Clone, Copy)]
pub enum Ending {
    /// The node sends nothing on, and refuses nothing.
    Ended,
    /// The node refuses the packet with this error.
    Refused(Errno),
    /// A copy was sent or left, and was lost.
    Lost(Cause),
    /// The item was dropped.
    Dropped(Cause),
}

/// A node as it is told of.
#[derive(Clone, Copy)]
pub struct Label {
    /// Its number.
    pub node: NodeId,
    /// Its name, if it has one.
    pub name: Option<Name>,
    /// Its type.
    pub kind: Kind,
}

/// Where an item is.
#[derive(Clone, Copy)]
pub struct Spot {
    /// The number of the item.
    pub id: ItemId,
    /// Its node.
    pub label: Label,
    /// The door that it came by, if it is a packet.
    pub door: Option<Door>,
}

/// Where a packet ended, and how.
#[derive(Clone, Copy)]
pub struct Place {
    /// The node.
    pub label: Label,
    /// The door that it came by.
    pub door: Door,
    /// How it ended.
    pub why: Ending,
}

/// What came of a packet at its node.
#[derive(Clone, Copy)]
pub struct Came {
    /// Its hook was gone, so that it was dropped.
    pub gone: bool,
    /// How many copies were to leave the graph.
    pub leaves: u64,
    /// Nothing was sent on, nothing left, and nothing was refused.
    pub silent: bool,
    /// Why it was refused, or 0.
    pub errno: Errno,
}
