// Why a script isn't read.
ghost use Rattle.std.specs.Prelude.{◌≡◌};
ghost use Rattle.ngctl_script.specs.declared.fault.ScriptFault.TheVariants.{NoMemory as out_of_memory};

use std::alloc::{AllocError, AllocFailed};
use thiserror::Error;

/// Why bytes are no script: the first line that has a fault. Of several faults of one line the first of these is told.
#[derive(Clone, Copy, Debug, PartialEq, Eq, Error)]
pub enum ScriptFault {
    /// The line of this number, from 1, has more than 4,096 bytes without its end.
    #[error("script line {0}: line too long")]
    LineTooLong(u32),
    /// The line of this number begins with `@` and is no mark that may stand there.
    #[error("script line {0}: bad mark")]
    BadMark(u32),
    /// The line of this number is the 4,097th command.
    #[error("script line {0}: too many commands")]
    TooMany(u32),
    /// Memory was wanted and there was none.
    #[error("out of memory")]
    NoMemory,
}

impl From<AllocError> for ScriptFault {
    ghost from_gives = { λ _ fault. fault ≡ out_of_memory };

    fn from(_: AllocError) -> Self {
        ScriptFault::NoMemory
    }
}

impl<T: Drop> From<AllocFailed<T>> for ScriptFault {
    ghost from_gives = { λ _ fault. fault ≡ out_of_memory };

    fn from(_: AllocFailed<T>) -> Self {
        ScriptFault::NoMemory
    }
}

impl From<ng_base::NoMemory> for ScriptFault {
    ghost from_gives = { λ _ fault. fault ≡ out_of_memory };

    fn from(_: ng_base::NoMemory) -> Self {
        ScriptFault::NoMemory
    }
}
