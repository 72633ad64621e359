// The words of the command line.
ghost use Rattle.std.specs.Prelude.{◌≡◌, ◌≢◌, drop};
ghost use Rattle.ng_replay.specs.declared.ended.ReplayFault.{ReplayFault};
ghost use Rattle.ngtrace.specs.Program.{IsWordless, changed};

use crate::tell::{line_of_fault, tell};
use ng_outside::Sink;
use ng_replay::ReplayFault;
use std::alloc::Global;
use std::io::ErrorKind;

const USAGE: u8 = 64;

const OUT_OF_MEMORY: u8 = 71;

/// The words behind the program's name, which is the first.
pub fn behind_name(args: Vec<String>) -> Vec<String>
    ensures { result.items ≡ drop 1 args.items }
{
    let mut words = args;
    if !words.is_empty() {
        let _name = words.remove(0);
    }
    words
}

/// Tells why the words couldn't be taken, and gives the exit status: 71 where memory ran out, 64 where a word is no
/// UTF-8.
pub fn wordless<E: Sink>(alloc: Global, kind: ErrorKind, errors: &mut E) -> u8
    ensures memory { kind ≡ ErrorKind.OutOfMemory
        → IsWordless ReplayFault.NoMemory (changed E.contents E.faults errors.old errors.new) result }
    ensures text { kind ≢ ErrorKind.OutOfMemory
        → IsWordless ReplayFault.Usage (changed E.contents E.faults errors.old errors.new) result }
{
    match kind {
        ErrorKind::OutOfMemory => {
            tell(line_of_fault(alloc, &ReplayFault::NoMemory, &[]), errors);
            OUT_OF_MEMORY
        }
        _ => {
            tell(line_of_fault(alloc, &ReplayFault::Usage, &[]), errors);
            USAGE
        }
    }
}
