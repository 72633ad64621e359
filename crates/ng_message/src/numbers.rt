// The numbers of ng_message.h that every message has to do with.
ghost use Rattle.std.specs.Prelude.{◌≡◌};
ghost use Rattle.ng_message.specs.Numbers.{is_reader_number};

/// The version of a header that this program knows (`NG_VERSION` of ng_message.h).
pub const VERSION: u8 = 8;

/// The cookie of the generic messages, which all nodes know (`NGM_GENERIC_COOKIE` of ng_message.h).
/// Their numbers are the constants of [`generic`](crate::generic).
pub const GENERIC_COOKIE: u32 = 1_137_070_366;

/// The bit of a message's number that says that the message changes nothing (`NGM_READONLY` of
/// ng_message.h).
pub const READ_ONLY: u32 = 0x1000_0000;

/// The bit of a message's number that says that the message is answered (`NGM_HASREPLY` of
/// ng_message.h).
pub const HAS_ANSWER: u32 = 0x2000_0000;

/// The bit of a header's flags that says that the message is an answer (`NGF_RESP` of ng_message.h).
pub const ANSWER_FLAG: u32 = 1;

/// Whether a message of that number changes nothing, so that it may be worked on beside others: whether
/// the bit [`READ_ONLY`] of the number is set, as netgraph(4) describes.
pub fn is_read_only(number: u32) -> bool
    ensures { result ≡ is_reader_number number }
{
    number / READ_ONLY % 2 == 1
}
