// The whole program over any files and sinks.
ghost use Rattle.std.specs.Prelude.{◌≡◌};
ghost use Rattle.ng_call.specs.Called.{happened, texts};
ghost use Rattle.ngtrace.specs.Program.{IsProgram, changed};

use crate::stocked::trace_stocked;
use crate::tell::{OUT_OF_MEMORY_LINE, put, tell_end};
use ng_base::NoMemory;
use ng_outside::{Files, Sink};
use std::alloc::Global;

const OUT_OF_MEMORY: u8 = 71;

/// Does what the words ask for, with its text into `out` and the line of a fault into `errors`, and gives the exit
/// status, that of [`ng_replay::Replayed`].
pub fn program<F: Files, O: Sink, E: Sink>(
    alloc: Global,
    words: &[String],
    files: &mut F,
    out: &mut O,
    errors: &mut E,
) -> u8
    ensures { IsProgram (texts words.now)
        (happened O.contents O.faults F.contents F.faults out.old out.new files.old files.new)
        (changed E.contents E.faults errors.old errors.new) result }
{
    match trace_stocked(alloc, words, files, out) {
        Ok(traced) => {
            tell_end(alloc, &traced, words, errors);
            traced.status
        }
        Err(NoMemory) => {
            put(OUT_OF_MEMORY_LINE, errors);
            OUT_OF_MEMORY
        }
    }
}
