// The faults of a trace are those of a replay.
ghost use Rattle.std.specs.Prelude.{◌≡◌};
ghost use Rattle.ng_replay.specs.Faults.{fault_status, given_of, replay_fault, status_of};

use ng_call::{Fault, Which};
use ng_replay::{Given, ReplayFault, Replayed};

// Only a script and captures are read as a run reads them.
fn given_of(which: Which) -> Given
    ensures { result ≡ given_of which }
{
    match which {
        Which::Script => Given::Script,
        Which::Capture(port) => Given::Capture(port),
        Which::Sink | Which::Leaving(_) | Which::Journal => Given::Journal,
    }
}

/// The fault of a trace that comes of one of a run.
pub(crate) fn replay_fault(fault: Fault) -> ReplayFault
    ensures { result ≡ replay_fault fault }
{
    match fault {
        Fault::Usage => ReplayFault::Usage,
        Fault::Script(fault) => ReplayFault::Script(fault),
        Fault::Capture { port, why } => ReplayFault::Capture { port, why },
        Fault::TooBig(which) => ReplayFault::TooBig(given_of(which)),
        Fault::ReadFault(which) => ReplayFault::ReadFault(given_of(which)),
        Fault::WriteFault(_) => ReplayFault::WriteFault,
        Fault::NoMemory => ReplayFault::NoMemory,
    }
}

fn fault_status(fault: ReplayFault) -> u8
    ensures { result ≡ fault_status fault }
{
    match fault {
        ReplayFault::Usage => 64,
        ReplayFault::Script(_)
        | ReplayFault::Capture { .. }
        | ReplayFault::Journal(_)
        | ReplayFault::TooBig(_) => 65,
        ReplayFault::ReadFault(_) => 66,
        ReplayFault::WriteFault => 74,
        ReplayFault::No { .. } => 3,
        ReplayFault::NoMemory => 71,
    }
}

/// How a trace ended that has this fault, or none.
pub(crate) fn ended_by(fault: Option<ReplayFault>) -> Replayed
    ensures status { result.status ≡ status_of fault }
    ensures fault { result.fault ≡ fault }
{
    let status = match fault {
        None => 0,
        Some(fault) => fault_status(fault),
    };
    Replayed { status, fault }
}
