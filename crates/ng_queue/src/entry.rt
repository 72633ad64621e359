// The entries of a queue, and why its head is held back.
use crate::BoxedItem;
use ng_base::ItemId;
use ng_machine::Lane;
use thiserror::Error;

/// What a queue keeps of an item that was taken and is not applied yet: an item that is out.
#[derive(Clone, Copy, Debug, PartialEq, Eq)]
pub struct Mark {
    /// The number of the item.
    pub id: ItemId,
    /// Whether its node has to be alone for it.
    pub writer: bool,
    /// What keeps it in order beside other readers, if anything does.
    pub lane: Option<Lane>,
}

/// One entry of a queue: an item that waits, or the mark of one that is out.
#[derive(Drop)]
pub enum Entry {
    /// The item waits.
    Waiting(BoxedItem),
    /// The item is out.
    Out(Mark),
}

/// Why the head of a queue can't be taken.
#[derive(Clone, Copy, Debug, PartialEq, Eq, Error)]
pub enum Hold {
    /// No item waits.
    #[error("no item waits")]
    Empty,
    /// The writer of this number is out, and a writer is alone with its node.
    #[error("a writer is taken")]
    WriterIn(ItemId),
    /// The head is a writer, and so many items, at least one, are out.
    #[error("{0} items are taken")]
    ReadersIn(usize),
    /// The head is a reader, and the item of this number, the first of its lane, is out.
    #[error("an item of the same lane is taken")]
    SameHook(ItemId),
}
