// The call with the blank nodes of the program.
ghost use Rattle.std.specs.Prelude.{IfOk, OnErr};
ghost use Rattle.ng_call.specs.ending.Outside.{Same};
ghost use Rattle.ng_call.specs.Called.{happened, texts};
ghost use Rattle.ng_call.specs.Parts.{storing};
ghost use Rattle.ng_stock.specs.Stocked.{stocked};
ghost use Rattle.ng_trace_call.specs.Traced.{IsTraced};
ghost use Rattle.ng_trace_call.specs.Words.{trace_words_of};

use ng_base::NoMemory;
use ng_outside::{Files, Sink};
use ng_replay::Replayed;
use ng_stock::{stock, stock_suffices};
use ng_trace_call::ngtrace;
use std::alloc::Global;

/// Traces with the blank nodes of ng_stock, which are those of the run: one socket, 64 ethers and 256 of each other type.
/// There are as many again for a run that is made here.
///
/// # Errors
/// `NoMemory` where there is none for the nodes; nothing was written then.
pub fn trace_stocked<F: Files, O: Sink>(
    alloc: Global,
    words: &[String],
    files: &mut F,
    out: &mut O,
) -> Result<Replayed, NoMemory>
    ensures traced { IfOk result (λ traced. IsTraced stocked (trace_words_of (texts words.now))
        (happened O.contents O.faults F.contents F.faults out.old out.new files.old files.new) traced) }
    ensures same { OnErr result (Same (storing (O.contents out.old) (F.contents files.old))
        (storing (O.contents out.new) (F.contents files.new))) }
{
    let first = stock(alloc)?;
    let again = stock(alloc)?;
    stock_suffices();
    Ok(ngtrace(alloc, words, files, out, first, again))
}
