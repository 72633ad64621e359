// Items in places of their own.
ghost use Rattle.std.specs.Prelude.{◌≡◌};

use ng_base::{ItemId, NoMemory, NodeId, Stamp};
use ng_machine::{Body, Item};
use std::alloc::Global;
use std::marker::Model;
use std::ops::Deref;

/// An item in a place of its own: who hands it on moves a pointer.
///
/// A contract sees the item.
#[derive(Drop)]
pub struct BoxedItem {
    place: Box<Item>,
}

impl Model for BoxedItem {
    ghost use Rattle.ng_machine.specs.declared.item.Item.{Item};

    ghost Value = { Item };

    ghost view = { λ b. b.place.value };
}

/// The item, to be looked at.
impl Deref for BoxedItem {
    type Target = Item;

    ghost deref_gives = { λ b x. x ≡ b };

    fn deref(&self) -> &Item
        ensures { result.now ≡ self.now }
    {
        &self.place
    }
}

/// A place for an item, with none in it.
#[derive(Drop)]
pub struct Slot {
    // What is in it counts for nothing.
    place: Box<Item>,
}

// An item that stands where none is. It has no memory of its own.
fn no_item() -> Item {
    Item {
        id: ItemId(0),
        to: NodeId(0),
        body: Body::Tick(0),
        writer: false,
        tag: None,
        stamp: Stamp(0),
    }
}

impl Slot {
    /// A place for one item.
    ///
    /// # Errors
    /// `NoMemory` where memory ran out, and for nothing else.
    pub fn new(alloc: Global) -> Result<Slot, NoMemory> {
        Ok(Slot {
            place: Box::new(alloc, no_item())?,
        })
    }

    /// The item, in this place. It takes no memory.
    pub fn fill(self, item: Item) -> BoxedItem
        ensures { result ≡ item }
    {
        let mut place = self.place;
        *place = item;
        BoxedItem { place }
    }
}

impl BoxedItem {
    /// The item, and the place that it stood in.
    pub fn part(self) -> (Item, Slot)
        ensures { result.0 ≡ self }
    {
        let mut place = self.place;
        let item = Box::replace(&mut place, no_item());
        (item, Slot { place })
    }

    /// The place that the item stood in, which is dropped.
    pub fn into_slot(self) -> Slot {
        let mut place = self.place;
        *place = no_item();
        Slot { place }
    }
}
