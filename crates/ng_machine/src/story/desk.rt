// What a seat has to itself.
use std::marker::Model;

/// The desk of a seat: its events, whether it gave up, and what it works on. Contracts alone speak of it, and no value of it
/// is made.
pub struct Desk {
    nothing: (),
}

impl Model for Desk {
    ghost use Rattle.ng_machine.specs.Desk.{SeatDesk};
    ghost use Rattle.ng_machine.specs.story.Desks.{no_desk};

    ghost Value = { SeatDesk };

    ghost view = { λ d. no_desk };
}
