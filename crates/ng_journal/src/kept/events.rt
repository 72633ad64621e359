// The events of a journal, one after the other.
ghost use Rattle.std.specs.Prelude.{◌≡◌};
ghost use Rattle.ng_journal.specs.kept.Shorts.{events_in};

use crate::kept::short::{Short, lengthen};
use ng_base::Event;
use std::marker::Model;

/// The events of a journal that are left, in order. A contract sees them as a list.
#[derive(Debug, Drop)]
pub struct Events<'a> {
    shorts: &'a [Short],
    great: &'a [Event],
}

impl<'a> Model for Events<'a> {
    ghost use Rattle.std.specs.Prelude.{List};
    ghost use Rattle.ng_base.specs.declared.event.Event.{Event};
    ghost use Rattle.ng_journal.specs.kept.Shorts.{events_in};

    ghost Value = { List Event };

    ghost view = { λ e. events_in e.shorts.now e.great.now };
}

impl<'a> Events<'a> {
    /// The events that these stand for.
    pub(super) fn new(shorts: &'a [Short], great: &'a [Event]) -> Events<'a>
        ensures { result ≡ events_in shorts.now great.now }
    {
        Events { shorts, great }
    }
}

impl<'a> Iterator for Events<'a> {
    ghost use Rattle.std.specs.Iterator.{item_count, YieldsFirst};

    type Item = Event;

    ghost next_gives = { YieldsFirst (λ e. e) };

    ghost remaining = { item_count (λ e. e) };

    fn next(&mut self) -> Option<Event> {
        let (short, shorts) = self.shorts.split_first()?;
        if let Some(event) = lengthen(*short) {
            self.shorts = shorts;
            return Some(event);
        }
        let (event, great) = self.great.split_first()?;
        self.shorts = shorts;
        self.great = great;
        Some(*event)
    }
}
