// When a command is fed.

/// When a command is fed, by the last mark in front of it.
#[derive(Clone, Copy, Debug, PartialEq, Eq)]
pub enum When {
    /// Before the first packet: no mark stands in front of it.
    First,
    /// Right behind the packet of this number, from 1, and for 0 in front of all; behind the last packet where there are
    /// fewer. `@N`, with N up to 1,000,000.
    After(u32),
    /// Behind everything else, once nothing is pending. `@end`.
    Late,
}
