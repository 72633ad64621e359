// A journal that is written.
ghost use Rattle.std.specs.Prelude.{◌≡◌, ◌+◌, ◌<◌, ◌≤◌, ◌^◌, ◌++◌, [], ◌∷◌, length, slice_get, OnOk, OnErr};

use crate::kept::Events;
use crate::kept::short::{Short, greats_among, lengthen, shorten};
use ng_base::{Event, NoMemory};
use std::alloc::Global;
use std::marker::Model;

/// The events of a run in their order. Each takes eight bytes, but for one of an item's number from 2^32 on or of a seat's
/// from 2^16 on, which takes 24.
///
/// A contract sees the events, and for how many more there is memory.
#[derive(Debug, Drop)]
pub struct Journal {
    shorts: Vec<Short>,
    // The events whose numbers are greater, in order.
    great: Vec<Event>,
}

impl Model for Journal {
    ghost use Rattle.ng_journal.specs.kept.Journal.{Log};
    ghost use Rattle.ng_journal.specs.kept.JournalFields.{log_of, IsConsistent};

    ghost Value = { Log };

    ghost view = { log_of };

    ghost invariant = { IsConsistent };
}

impl Journal {
    /// No events. It takes no memory.
    pub fn new(alloc: Global) -> Journal
        ensures { result.items ≡ [] }
    {
        Journal {
            shorts: Vec::new(alloc),
            great: Vec::new(alloc),
        }
    }

    /// How many events there are.
    pub fn len(&self) -> usize
        ensures len { result ≡ length self.now.items }
        ensures few { length self.now.items < 2 ^ 63 }
    {
        self.shorts.len()
    }

    /// The events, in their order.
    pub fn events(&self) -> Events<'_>
        ensures { result ≡ self.now.items }
    {
        Events::new(&self.shorts, &self.great)
    }

    /// The event at a place, counted from 0, or `None` after the last. It takes one step, but for an event of great numbers: there
    /// those before it are passed over.
    pub fn get(&self, at: usize) -> Option<Event>
        ensures { result ≡ slice_get self.now.items at }
    {
        let short = self.shorts.get(at)?;
        if let Some(event) = lengthen(*short) {
            return Some(event);
        }
        let event = self.great.get(greats_among(&self.shorts[..at]))?;
        Some(*event)
    }

    /// Takes the memory for so many events more.
    ///
    /// # Errors
    /// `NoMemory` where memory ran out, and for nothing else; nothing but room changed.
    pub fn reserve(&mut self, count: usize) -> Result<(), NoMemory>
        ensures items { self.new.items ≡ self.old.items }
        ensures more { self.old.room ≤ self.new.room }
        ensures room { OnOk result (count ≤ self.new.room) }
    {
        self.shorts.reserve(count)?;
        self.great.reserve(count)?;
        Ok(())
    }

    /// Takes memory ahead for so many events more of small numbers, if there is as much: they are then added without being
    /// copied from place to place.
    pub fn expect(&mut self, count: usize)
        ensures items { self.new.items ≡ self.old.items }
        ensures more { self.old.room ≤ self.new.room }
    {
        let _reserved = self.shorts.reserve(count);
    }

    /// Adds an event at the end. There is memory for it, and it cannot fail.
    pub fn push_reserved(&mut self, event: Event)
        requires room { 0 < self.old.room }
        ensures items { self.new.items ≡ self.old.items ++ event ∷ [] }
        ensures room { self.old.room ≤ self.new.room + 1 }
    {
        match shorten(event) {
            Some(short) => self.shorts.push_reserved(short),
            None => {
                self.shorts.push_reserved(Short::Great);
                self.great.push_reserved(event);
            }
        }
    }

    /// Adds an event at the end.
    ///
    /// # Errors
    /// `NoMemory` where memory ran out, and for nothing else; the events are then as before.
    pub fn push(&mut self, event: Event) -> Result<(), NoMemory>
        ensures ok { OnOk result (self.new.items ≡ self.old.items ++ event ∷ []) }
        ensures err { OnErr result (self.new.items ≡ self.old.items) }
    {
        self.shorts.reserve(1)?;
        match shorten(event) {
            Some(short) => self.shorts.push_reserved(short),
            None => {
                self.great.push(event)?;
                self.shorts.push_reserved(Short::Great);
            }
        }
        Ok(())
    }
}
