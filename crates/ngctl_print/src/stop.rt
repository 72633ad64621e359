// Why a print stopped.
ghost use Rattle.std.specs.Prelude.{◌≡◌};
ghost use Rattle.ngctl_print.specs.declared.stop.PrintStop.TheVariants.{Fault as PrintFault, NoMemory as PrintNoMemory};

use ng_base::NoMemory;
use ng_outside::Failed;
use std::alloc::AllocError;
use thiserror::Error;

/// Why the text wasn't put whole.
#[derive(Clone, Copy, Debug, PartialEq, Eq, Error)]
pub enum PrintStop {
    /// The sink failed, and has counted a fault more.
    #[error("can't write output")]
    Fault,
    /// Memory was wanted for a line, and there was none.
    #[error("out of memory")]
    NoMemory,
}

impl From<Failed> for PrintStop {
    ghost from_gives = { λ _ stop. stop ≡ PrintFault };

    fn from(_: Failed) -> Self {
        PrintStop::Fault
    }
}

impl From<NoMemory> for PrintStop {
    ghost from_gives = { λ _ stop. stop ≡ PrintNoMemory };

    fn from(_: NoMemory) -> Self {
        PrintStop::NoMemory
    }
}

impl From<AllocError> for PrintStop {
    ghost from_gives = { λ _ stop. stop ≡ PrintNoMemory };

    fn from(_: AllocError) -> Self {
        PrintStop::NoMemory
    }
}
