// What a seat does once it has let go of the core.

/// What a seat does once it has let go of the core.
pub(crate) enum Next<W> {
    /// It works on what it took.
    Taken(W),
    /// Nothing is to be taken now.
    Nothing,
    /// The core has ended, or the seat gave up.
    End,
}
