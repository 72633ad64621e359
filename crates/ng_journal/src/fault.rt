// Why a file is no journal.
ghost use Rattle.std.specs.Prelude.{◌≡◌};
ghost use Rattle.ng_journal.specs.declared.fault.JournalFault.TheVariants.{NoMemory as out_of_memory};

use ng_base::NoMemory;
use thiserror::Error;

/// Why bytes are no journal.
#[derive(Clone, Copy, Debug, PartialEq, Eq, Error)]
pub enum JournalFault {
    /// The line of this number, from 1, is the first that isn't as a journal has it.
    #[error("bad line {0}")]
    BadLine(u64),
    /// Memory was wanted and there was none.
    #[error("out of memory")]
    NoMemory,
}

impl From<NoMemory> for JournalFault {
    ghost from_gives = { λ _ fault. fault ≡ out_of_memory };

    fn from(_: NoMemory) -> Self {
        JournalFault::NoMemory
    }
}
