// The right of a seat to take the value.
ghost use Rattle.std.specs.Prelude.{◌≡◌};

use crate::Desked;
use crate::rule::View;
use crossbeam_queue::Pass as QueuePass;

/// What stands for a view of the place. It has no bytes.
pub(crate) type Ticket<T> = QueuePass<T, View<T, <T as Desked>::Desk>>;

/// The right of one seat to take the value of one turn, while the seat doesn't have it.
///
/// A contract sees the seat (`seat_of`), the turn (`IsPass`) and the desk of the seat (`desk_of`),
/// which stays as it is for as long as the pass is held, whatever the other seats do.
#[derive(Drop)]
pub struct Pass<T: Desked> {
    pub(crate) ticket: Ticket<T>,
    pub(crate) seat: u32,
}

impl<T: Desked> Pass<T> {
    ghost use Rattle.ng_turn.specs.Words.{seat_of};

    /// The number of the seat, from 0.
    pub fn seat(&self) -> u32
        ensures { result ≡ seat_of self.now }
    {
        self.seat
    }
}
