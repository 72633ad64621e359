// The value while a seat has it.
ghost use Rattle.std.specs.Prelude.{◌≡◌};

use crate::Desked;
use crate::pass::Ticket;
use std::snapshot::Snapshot;

/// The value of a turn, in the hands of one seat.
///
/// It can't be dropped: a path on which the value would be lost doesn't compile, so there is no `?`
/// between `Turn::take` and `Turn::put`. A contract sees the seat (`holder`), the turn (`IsHeld`), the
/// value as it is (`value_of`) and the value as it was taken (`found_value`).
pub struct Held<T: Desked> {
    pub(crate) ticket: Ticket<T>,
    pub(crate) seat: u32,
    pub(crate) value: T,
    pub(crate) found: Snapshot<T>,
}

impl<T: Desked> Held<T> {
    ghost use Rattle.std.specs.Borrow.{sem};
    ghost use Rattle.ng_turn.specs.Lending.{LendsValue};
    ghost use Rattle.ng_turn.specs.Words.{value_of};

    /// The value.
    pub fn value(&self) -> &T
        ensures { result.now ≡ value_of self.now }
    {
        &self.value
    }

    /// The value, to be changed. What was found stays as it was.
    pub fn value_mut(&mut self) -> &mut T
        ensures* lends { sem 𝓛 (LendsValue T.row T.Desk.row self.entry result) }
        ensures value { result.now ≡ value_of self.old }
    {
        &mut self.value
    }
}
