// A capture, as a value.
use ng_base::{Packet, Sequence, Stamp};

/// The packets of a capture, each with the time at which it was seen.
///
/// A contract sees the packets as a list of times and bytes.
#[derive(Drop)]
pub struct Capture {
    /// The packets that the file has whole, in its order.
    pub kept: Sequence<(Stamp, Packet)>,
    /// Where the file's end cuts a packet or its head: the place of that head, in bytes from the
    /// file's start. `None` where the file ends with a packet, or right behind the file's head.
    pub cut: Option<u64>,
}
