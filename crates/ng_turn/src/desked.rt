// What each seat has to itself in a value that is shared.
ghost use Rattle.std.specs.Prelude.{ℕ};

/// A value with a desk for each seat.
///
/// The desk of a seat is that part of the value which only that seat may change. A seat that has
/// the value may read all of it and change its own desk. It may also change what no desk shows.
pub trait Desked {
    /// What a desk shows. It is named in contracts alone, so no value of it is ever made.
    type Desk;

    /// The desk of the seat with this number.
    ghost desk: { Self → ℕ → Self.Desk };

    /// Any desk. It stands where there is no other, as 0 does behind the end of a list.
    ghost blank: { Self.Desk };
}
