// What a step of a seat leaves.

/// What a step of a seat leaves: its pass, and what it has to hand in.
pub(crate) enum Step<P, D> {
    /// The seat goes on.
    Goes(P, D),
    /// The seat is over.
    Ends(P),
}
