// What is noted of a run.
ghost use Rattle.std.specs.Prelude.{◌≡◌, ◌++◌, ◌<◌, length, replicate, slice_index_or, IfOk, OnOk};
ghost use Rattle.ng_trace.specs.Watched.{add_place, blank_journey, change_journey, note_drops, note_ending, note_endings, note_reached, nothing_noted, origin_of, place_by, reach, with_items};

use crate::sums::sum_up;
use crate::{Ending, Label, NodeSum, Place, Spot};
use ng_base::{ItemId, NoMemory};
use std::alloc::Global;
use std::marker::Model;

// So many places of a packet are kept.
const MOST_PLACES: usize = 8;

/// What became of a packet: whether a copy of it left the graph, and if none did where its copies ended.
#[derive(Drop)]
pub struct Journey {
    /// A copy left by a wire, to a host or to the reader.
    pub reached: bool,
    /// The first places where its copies ended, if none left.
    pub places: Vec<Place>,
    /// How many more places there are.
    pub more: u64,
}

impl Model for Journey {
    ghost use Rattle.ng_trace.specs.Watched.{Journey as JourneyRecord};

    ghost Value = { JourneyRecord };

    ghost view = { λ j. record { reached = j.reached; places = j.places.items; more = j.more } };
}

impl Journey {
    /// Nothing is known of it yet.
    fn blank(alloc: Global) -> Journey
        ensures { result ≡ blank_journey }
    {
        Journey {
            reached: false,
            places: Vec::new(alloc),
            more: 0,
        }
    }

    /// A copy left.
    fn reach(&mut self)
        ensures { self.new ≡ reach self.old }
    {
        self.reached = true;
        self.places.clear();
        self.more = 0;
    }

    /// A copy ended at a place. Of a packet that reached something none is kept.
    ///
    /// # Errors
    /// `NoMemory` where memory ran out, or the count would be greater than 2^64 - 1.
    fn add_place(&mut self, place: Place) -> Result<(), NoMemory>
        ensures { OnOk result (self.new ≡ add_place place self.old) }
    {
        if self.reached {
            return Ok(());
        }
        if self.places.len() < MOST_PLACES {
            let Label { node, name, kind } = place.label;
            self.places.push(Place {
                label: Label { node, name, kind },
                ..place
            })?;
            return Ok(());
        }
        let Some(more) = self.more.checked_add(1) else {
            return Err(NoMemory);
        };
        self.more = more;
        Ok(())
    }
}

/// What is noted of a run: of which input each item came, what became of the packet of each input, and how often something ended
/// at each node.
#[derive(Drop)]
pub struct Watched {
    pub(crate) origins: Vec<u64>,
    pub(crate) journeys: Vec<Journey>,
    pub(crate) sums: Vec<NodeSum>,
}

impl Model for Watched {
    ghost use Rattle.ng_trace.specs.Watched.{Watched as WatchedRecord};

    ghost Value = { WatchedRecord };

    ghost view = { λ t. record { origins = t.origins.items; journeys = t.journeys.items; sums = t.sums.items } };
}

fn blank_journeys(alloc: Global, inputs: usize) -> Result<Vec<Journey>, NoMemory>
    ensures { IfOk result (λ journeys. journeys.items ≡ replicate inputs blank_journey) }
{
    let mut journeys = Vec::new(alloc);
    for _ in 0..inputs {
        journeys.push(Journey::blank(alloc))?;
    }
    Ok(journeys)
}

impl Watched {
    /// Nothing is noted of a run of this number of inputs.
    ///
    /// # Errors
    /// `NoMemory` where memory ran out, and for nothing else.
    pub(crate) fn new(alloc: Global, inputs: usize) -> Result<Watched, NoMemory>
        ensures { IfOk result (λ t. t ≡ nothing_noted inputs) }
    {
        let journeys = blank_journeys(alloc, inputs)?;
        let mut origins = Vec::new(alloc);
        origins.push(0)?;
        Ok(Watched {
            origins,
            journeys,
            sums: Vec::new(alloc),
        })
    }

    // The input of which an item came.
    pub(crate) fn origin_of(&self, id: ItemId) -> u64
        ensures { result ≡ origin_of self.now id }
    {
        let at = id.0 as usize;
        if at < self.origins.len() {
            self.origins[at]
        } else {
            0
        }
    }

    /// So many new items come of this input.
    pub(crate) fn add_items(&mut self, count: u64, of: u64) -> Result<(), NoMemory>
        ensures { OnOk result (self.new ≡ with_items count of self.old) }
    {
        for _ in 0..count {
            self.origins.push(of)?;
        }
        Ok(())
    }

    // A copy ended at a place, of the packet of an input.
    fn add_place_at(&mut self, of: u64, place: Place) -> Result<(), NoMemory>
        ensures { OnOk result (self.new ≡ change_journey of (add_place place) self.old) }
    {
        let of = of as usize;
        if of < self.journeys.len() {
            self.journeys[of].add_place(place)?;
        }
        Ok(())
    }

    // Of a packet, a copy ended so.
    fn place_by(&mut self, spot: &Spot, why: Ending) -> Result<(), NoMemory>
        ensures { OnOk result (self.new ≡ place_by spot.now spot.now.door why self.old) }
    {
        let Some(door) = spot.door else {
            return Ok(());
        };
        let place = Place {
            label: spot.label,
            door,
            why,
        };
        self.add_place_at(self.origin_of(spot.id), place)
    }

    /// An item ended so, or a copy that was made of it.
    pub(crate) fn note_ending(&mut self, spot: &Spot, why: Ending) -> Result<(), NoMemory>
        ensures { OnOk result (self.new ≡ note_ending spot.now self.old why) }
    {
        sum_up(&spot.label, why, &mut self.sums)?;
        self.place_by(spot, why)
    }

    /// All these.
    pub(crate) fn note_endings(&mut self, spot: &Spot, endings: &[Ending]) -> Result<(), NoMemory>
        ensures { OnOk result (self.new ≡ note_endings spot.now self.old endings.now) }
    {
        for why in endings {
            self.note_ending(spot, *why)?;
        }
        Ok(())
    }

    /// Each of these items is dropped.
    pub(crate) fn note_drops(&mut self, why: Ending, spots: &[Spot]) -> Result<(), NoMemory>
        ensures { OnOk result (self.new ≡ note_drops why self.old spots.now) }
    {
        for spot in spots {
            self.note_ending(spot, why)?;
        }
        Ok(())
    }

    /// A copy of the item's packet left, if it did.
    pub(crate) fn note_reached(&mut self, left: bool, id: ItemId)
        ensures { self.new ≡ note_reached left id self.old }
    {
        if !left {
            return;
        }
        let of = self.origin_of(id) as usize;
        if of < self.journeys.len() {
            self.journeys[of].reach();
        }
    }
}
