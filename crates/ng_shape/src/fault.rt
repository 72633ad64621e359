// Why bytes are no value.
ghost use Rattle.std.specs.Prelude.{◌≡◌};
ghost use Rattle.ng_shape.specs.declared.fault.BytesFault.TheVariants.{NoMemory as out_of_memory};

use std::alloc::{AllocError, AllocFailed};
use thiserror::Error;

/// Why bytes are not those of a value of a shape: the first of these, in this order, that holds.
#[derive(Clone, Copy, Debug, PartialEq, Eq, Error)]
pub enum BytesFault {
    /// There are `had` bytes. `need` is the place right behind the first integer, string, address or
    /// stretch of padding that they don't hold whole; a stretch is the padding before one integer or
    /// at the end of one structure.
    #[error("{had} bytes, where {need} are needed")]
    Short {
        /// How many bytes are needed at least.
        need: usize,
        /// How many there are.
        had: usize,
    },
    /// So many bytes are left over.
    #[error("{0} bytes left over")]
    Trailing(usize),
    /// Memory was asked for and there was none.
    #[error("out of memory")]
    NoMemory,
}

impl From<AllocError> for BytesFault {
    ghost from_gives = { λ _ fault. fault ≡ out_of_memory };

    fn from(_: AllocError) -> Self {
        BytesFault::NoMemory
    }
}

impl<T: Drop> From<AllocFailed<T>> for BytesFault {
    ghost from_gives = { λ _ fault. fault ≡ out_of_memory };

    fn from(_: AllocFailed<T>) -> Self {
        BytesFault::NoMemory
    }
}
