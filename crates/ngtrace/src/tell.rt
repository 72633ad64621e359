// The line of a fault, on standard error.
ghost use Rattle.std.specs.Prelude.{◌≡◌, ℕ, List, IfOk, OnErr};
ghost use Rattle.ng_call.specs.Called.{texts};
ghost use Rattle.ng_trace_call.specs.Line.{trace_line};
ghost use Rattle.ng_trace_call.specs.Words.{trace_words_of};
ghost use Rattle.ngtrace.specs.Program.{Puts, Tells, TellsIf, changed, line_of, memory_line};

use ng_base::NoMemory;
use ng_outside::{Sink, put_all};
use ng_replay::{ReplayFault, Replayed};
use ng_trace_call::trace_fault_line;
use std::alloc::Global;

/// What is told where memory ran out.
pub const OUT_OF_MEMORY_LINE: &[u8] = b"ngtrace: out of memory\n";

/// The line of a fault of a trace with these words.
///
/// # Errors
/// `NoMemory` where memory ran out, and for nothing else.
pub fn line_of_fault(
    alloc: Global,
    fault: &ReplayFault,
    words: &[String],
) -> Result<Vec<u8>, NoMemory>
    ensures { IfOk result (λ line. line.items ≡ trace_line fault.now (trace_words_of (texts words.now))) }
{
    let mut line = Vec::new(alloc);
    trace_fault_line(alloc, fault, words, &mut line)?;
    Ok(line)
}

/// Puts a line. Nobody is told where the sink fails.
pub fn put<E: Sink>(line: &[u8], errors: &mut E)
    ensures { Puts line.now (changed E.contents E.faults errors.old errors.new) }
{
    let told = put_all(errors, line);
    let _ = told;
}

/// Puts a line that was made, or that of a want of memory where it could not be made.
pub fn tell<E: Sink>(made: Result<Vec<u8>, NoMemory>, errors: &mut E)
    ensures made { IfOk made (λ bytes. Puts bytes.items (changed E.contents E.faults errors.old errors.new)) }
    ensures short { OnErr made (Puts memory_line (changed E.contents E.faults errors.old errors.new)) }
    ensures told { (line : List ℕ) → IfOk made (λ bytes. bytes.items ≡ line)
        → Tells line (changed E.contents E.faults errors.old errors.new) }
{
    match made {
        Ok(line) => put(&line, errors),
        Err(NoMemory) => put(OUT_OF_MEMORY_LINE, errors),
    }
}

/// Puts the line of the fault of a call with these words that ended so, or nothing where it ended well.
pub fn tell_end<E: Sink>(alloc: Global, traced: &Replayed, words: &[String], errors: &mut E)
    ensures { TellsIf (line_of (texts words.now) traced.now) (changed E.contents E.faults errors.old errors.new) }
{
    if let Some(fault) = &traced.fault {
        tell(line_of_fault(alloc, fault, words), errors);
    }
}
