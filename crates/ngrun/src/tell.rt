// The line of a fault, on standard error.
ghost use Rattle.std.specs.Prelude.{◌≡◌, ℕ, List, IfOk, OnErr};
ghost use Rattle.ng_forecast.specs.Line as forecast;
ghost use Rattle.ng_replay.specs.Line.{replay_line};
ghost use Rattle.ng_call.specs.Called.{texts};
ghost use Rattle.ng_call.specs.Line.{fault_line};
ghost use Rattle.ng_args.specs.Forecast.{forecast_words_of};
ghost use Rattle.ng_args.specs.Replay.{replay_words_of};
ghost use Rattle.ng_args.specs.Run.{words_of};
ghost use Rattle.ngrun.specs.Program.{Puts, Tells, TellsIf, changed, memory_line};
ghost use Rattle.ng_top.specs.Top.{line_of};

use ng_base::NoMemory;
use ng_call::{Fault, fault_line};
use ng_forecast::{ForecastFault, forecast_fault_line};
use ng_outside::{Sink, put_all};
use ng_replay::{ReplayFault, replay_fault_line};
use ng_top::{Ran, behind_first};
use std::alloc::Global;

/// What is told where memory ran out.
pub const OUT_OF_MEMORY_LINE: &[u8] = b"ngrun: out of memory\n";

/// The line of a fault of a run with these words.
///
/// # Errors
/// `NoMemory` where memory ran out, and for nothing else.
pub fn run_line(alloc: Global, fault: &Fault, words: &[String]) -> Result<Vec<u8>, NoMemory>
    ensures { IfOk result (λ line. line.items ≡ fault_line fault.now (words_of (texts words.now))) }
{
    let mut line = Vec::new(alloc);
    fault_line(alloc, fault, words, &mut line)?;
    Ok(line)
}

// That of a replay with these words behind the first.
fn replay_line(alloc: Global, fault: &ReplayFault, words: &[String]) -> Result<Vec<u8>, NoMemory>
    ensures { IfOk result (λ line. line.items ≡ replay_line fault.now (replay_words_of (texts words.now))) }
{
    let mut line = Vec::new(alloc);
    replay_fault_line(alloc, fault, words, &mut line)?;
    Ok(line)
}

// That of a forecast with these words behind the first.
fn forecast_line(
    alloc: Global,
    fault: &ForecastFault,
    words: &[String],
) -> Result<Vec<u8>, NoMemory>
    ensures { IfOk result (λ line. line.items ≡ forecast.fault_line fault.now (forecast_words_of (texts words.now))) }
{
    let mut line = Vec::new(alloc);
    forecast_fault_line(alloc, fault, words, &mut line)?;
    Ok(line)
}

/// Puts a line. Nobody is told where the sink fails.
pub fn put<E: Sink>(line: &[u8], errors: &mut E)
    ensures { Puts line.now (changed E.contents E.faults errors.old errors.new) }
{
    let told = put_all(errors, line);
    let _ = told;
}

/// Puts a line that was made, or that of a want of memory where it could not be made.
pub fn tell<E: Sink>(made: Result<Vec<u8>, NoMemory>, errors: &mut E)
    ensures made { IfOk made (λ bytes. Puts bytes.items (changed E.contents E.faults errors.old errors.new)) }
    ensures short { OnErr made (Puts memory_line (changed E.contents E.faults errors.old errors.new)) }
    ensures told { (line : List ℕ) → IfOk made (λ bytes. bytes.items ≡ line)
        → Tells line (changed E.contents E.faults errors.old errors.new) }
{
    match made {
        Ok(line) => put(&line, errors),
        Err(NoMemory) => put(OUT_OF_MEMORY_LINE, errors),
    }
}

/// Puts the line of the fault of a call with these words that ended so, or nothing where it ended well.
pub fn tell_end<E: Sink>(alloc: Global, ran: &Ran, words: &[String], errors: &mut E)
    ensures { TellsIf (line_of (texts words.now) ran.now) (changed E.contents E.faults errors.old errors.new) }
{
    match ran {
        Ran::Run(ended) => {
            if let Some(fault) = &ended.fault {
                tell(run_line(alloc, fault, words), errors);
            }
        }
        Ran::Replay(replayed) => {
            if let Some(fault) = &replayed.fault {
                tell(replay_line(alloc, fault, behind_first(words)), errors);
            }
        }
        Ran::Forecast(forecast) => {
            if let Some(fault) = &forecast.fault {
                tell(forecast_line(alloc, fault, behind_first(words)), errors);
            }
        }
    }
}
