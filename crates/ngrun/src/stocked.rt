// The top call with the blank nodes of the program.
ghost use Rattle.std.specs.Prelude.{IfOk, OnErr};
ghost use Rattle.ng_call.specs.ending.Outside.{Same};
ghost use Rattle.ng_call.specs.Called.{happened, texts};
ghost use Rattle.ng_call.specs.Parts.{storing};
ghost use Rattle.ng_stock.specs.Stocked.{stocked};
ghost use Rattle.ng_top.specs.Top.{IsTop};

use ng_base::NoMemory;
use ng_outside::{Files, Gate, Sink};
use ng_stock::{stock, stock_suffices};
use ng_top::{Ran, ngtop};
use std::alloc::Global;
use std::sync::Wait;
use std::thread::Threads;

/// Does what the words ask for with the blank nodes of ng_stock: one socket, 64 ethers and 256 of each other type.
///
/// # Errors
/// `NoMemory` where there is none for the nodes; nothing was written then.
pub fn run_stocked<R: Threads + Wait + Sync, F: Files, O: Sink, G: Gate + Sync>(
    rt: &R,
    alloc: Global,
    words: &[String],
    files: &mut F,
    out: &mut O,
    gate: &G,
) -> Result<Ran, NoMemory>
    ensures top { IfOk result (λ ran. IsTop stocked (texts words.now)
        (happened O.contents O.faults F.contents F.faults out.old out.new files.old files.new) ran) }
    ensures same { OnErr result (Same (storing (O.contents out.old) (F.contents files.old))
        (storing (O.contents out.new) (F.contents files.new))) }
{
    let stock = stock(alloc)?;
    stock_suffices();
    Ok(ngtop(rt, alloc, words, files, out, stock, gate))
}
