// Why bytes are an invalid address.
use thiserror::Error;

/// Why bytes are an invalid address. A place counts bytes from 0.
///
/// Of several faults the one of least place is told; at place 0 `EmptyNode` goes first, and
/// `TooLong` goes before all others.
#[derive(Clone, Copy, Debug, PartialEq, Eq, Error)]
pub enum PathFault {
    /// There are more than 511 bytes. netgraph gives an address 512 bytes with the NUL
    /// (`NG_PATHSIZ` of ng_message.h).
    #[error("more than 511 bytes")]
    TooLong,
    /// The first byte is `:`, so no node stands before it.
    #[error("no node before the colon")]
    EmptyNode,
    /// There is a second `:`, at this place.
    #[error("a second colon at {0}")]
    SecondColon(usize),
    /// Two dots of the hook part are adjacent, and the first of them has this place.
    #[error("two dots at {0}")]
    TwoDots(usize),
    /// The part that begins at this place is neither empty nor a name, or as a node part it is no
    /// node. No bytes at all are a bad name at 0.
    #[error("bad name at {0}")]
    BadName(usize),
}
