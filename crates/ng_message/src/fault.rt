// Why bytes are an invalid message.
ghost use Rattle.std.specs.Prelude.{◌≡◌};
ghost use Rattle.ng_message.specs.declared.fault.MsgFault.TheVariants.{NoMemory as out_of_memory};

use std::alloc::AllocError;
use thiserror::Error;

/// Why bytes are an invalid message: the first of these, in this order, that holds.
#[derive(Clone, Copy, Debug, PartialEq, Eq, Error)]
pub enum MsgFault {
    /// There are fewer bytes than a header has: so many.
    #[error("{0} bytes are no header")]
    Short(usize),
    /// The header's version isn't 8, but this.
    #[error("version {0}")]
    BadVersion(u8),
    /// The header says that so many bytes of arguments follow it, and so many do.
    #[error("{0} bytes of arguments said, {1} there")]
    BadLength(u32, usize),
    /// The command's name has no NUL in its 32 bytes.
    #[error("the command's name has no end")]
    NoNul,
    /// Memory ran out. The bytes are a message.
    #[error("out of memory")]
    NoMemory,
}

impl From<AllocError> for MsgFault {
    ghost from_gives = { λ _ fault. fault ≡ out_of_memory };

    fn from(_: AllocError) -> Self {
        MsgFault::NoMemory
    }
}
