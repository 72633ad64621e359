// What a seat is handed.
ghost use Rattle.std.specs.Prelude.{◌≡◌};
ghost use Rattle.ng_core_state.specs.Handed.{item_done, item_of};

use ng_base::{ItemId, NodeId};
use ng_machine::Outcome;
use ng_plan::Plan;
use ng_plan::node::Node;
use ng_queue::BoxedItem;
use std::sync::Arc;

/// What a seat takes: an item, and what it is worked on with.
#[derive(Drop)]
pub enum Work<B: Node> {
    /// A packet, and the plan of its node.
    Read { item: BoxedItem, plan: Arc<Plan> },
    /// A writer, and the node itself.
    Write { item: BoxedItem, node: B },
    /// An item that needs no work outside.
    Inside { item: BoxedItem },
}

/// What an item is worked on with.
#[derive(Clone, Copy)]
pub enum Tool {
    /// The plan of its node.
    Plan,
    /// The node.
    Node,
    /// Nothing.
    Nothing,
}

impl<B: Node> Work<B> {
    /// The number of its item.
    pub fn id(&self) -> ItemId
        ensures { result ≡ (item_of self.now).id }
    {
        match self {
            Work::Read { item, plan: _ } => item.id,
            Work::Write { item, node: _ } => item.id,
            Work::Inside { item } => item.id,
        }
    }

    /// The node that its item is for.
    pub fn node(&self) -> NodeId
        ensures { result ≡ (item_of self.now).to }
    {
        match self {
            Work::Read { item, plan: _ } => item.to,
            Work::Write { item, node: _ } => item.to,
            Work::Inside { item } => item.to,
        }
    }
}

/// What a seat hands in: an item, and what came of the work on it.
#[derive(Drop)]
pub enum Done<B: Node> {
    /// A packet, and what the plan of its node made of it.
    Read {
        item: BoxedItem,
        outcome: Outcome,
    },
    /// A writer, the node that worked on it, and what came of that.
    Write {
        item: BoxedItem,
        node: B,
        outcome: Outcome,
    },
    /// An item that needs no work outside.
    Inside {
        item: BoxedItem,
    },
}

impl<B: Node> Done<B> {
    /// The number of its item.
    pub fn id(&self) -> ItemId
        ensures { result ≡ (item_done self.now).id }
    {
        match self {
            Done::Read { item, outcome: _ } => item.id,
            Done::Write {
                item,
                node: _,
                outcome: _,
            } => item.id,
            Done::Inside { item } => item.id,
        }
    }

    /// The node that its item is for.
    pub fn node(&self) -> NodeId
        ensures { result ≡ (item_done self.now).to }
    {
        match self {
            Done::Read { item, outcome: _ } => item.to,
            Done::Write {
                item,
                node: _,
                outcome: _,
            } => item.to,
            Done::Inside { item } => item.to,
        }
    }
}
