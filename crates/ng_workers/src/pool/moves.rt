// Moves, and what comes of them.
use ng_machine::Input;

/// A move: what a seat is to do.
#[derive(Clone, Copy, Debug, PartialEq, Eq)]
pub enum Move {
    /// The next input is fed.
    Feed,
    /// The seat takes the least item that may be taken.
    Take { seat: u32 },
    /// The seat puts its item back.
    Back { seat: u32 },
    /// The seat works on its item and applies it.
    Apply { seat: u32 },
}

/// What came of a list of moves.
#[derive(Drop)]
pub struct Chosen {
    /// The places of the moves that were skipped, counted from 0, in order.
    pub skipped: Vec<u32>,
    /// The inputs that were not fed, in order.
    pub left: Vec<Input>,
}
