// The whole program over any files and sinks.
ghost use Rattle.std.specs.Prelude.{◌≡◌};
ghost use Rattle.ng_call.specs.Called.{happened, texts};
ghost use Rattle.ngrun.specs.Program.{IsProgram, changed};
ghost use Rattle.ng_top.specs.Top.{status_of};

use crate::stocked::run_stocked;
use crate::tell::{OUT_OF_MEMORY_LINE, put, tell_end};
use ng_base::NoMemory;
use ng_outside::{Files, Gate, Sink};
use ng_top::Ran;
use std::alloc::Global;
use std::sync::Wait;
use std::thread::Threads;

const OUT_OF_MEMORY: u8 = 71;

fn status_of(ran: &Ran) -> u8
    ensures { result ≡ status_of ran.now }
{
    match ran {
        Ran::Run(ended) => ended.status,
        Ran::Replay(replayed) => replayed.status,
        Ran::Forecast(forecast) => forecast.status,
    }
}

/// Does what the words ask for, with its text into `out` and the line of a fault into `errors`, and gives the exit
/// status. The statuses are those of [`ng_call::Ended`], [`ng_replay::Replayed`] and [`ng_forecast::Forecast`]. `rt`
/// starts the threads of the workers of a run, and each item that these take passes `gate`.
pub fn program<R: Threads + Wait + Sync, F: Files, O: Sink, E: Sink, G: Gate + Sync>(
    rt: &R,
    alloc: Global,
    words: &[String],
    files: &mut F,
    out: &mut O,
    errors: &mut E,
    gate: &G,
) -> u8
    ensures { IsProgram (texts words.now)
        (happened O.contents O.faults F.contents F.faults out.old out.new files.old files.new)
        (changed E.contents E.faults errors.old errors.new) result }
{
    match run_stocked(rt, alloc, words, files, out, gate) {
        Ok(ran) => {
            tell_end(alloc, &ran, words, errors);
            status_of(&ran)
        }
        Err(NoMemory) => {
            put(OUT_OF_MEMORY_LINE, errors);
            OUT_OF_MEMORY
        }
    }
}
