// The run of no workers is traced.
ghost use Rattle.std.specs.Prelude.{◌≡◌, ◌≤◌, IfOk};
ghost use Rattle.ng_call.specs.Called.{kinds_of};
ghost use Rattle.ng_call.specs.MayRun.{MayRun};
ghost use Rattle.ng_call.specs.Run.{setting_of};
ghost use Rattle.ng_core.specs.Stocked.{IsStocked};
ghost use Rattle.ng_replay.specs.Call.{run_of};
ghost use Rattle.ng_replay.specs.judge.Laws.{OneVerdict};
ghost use Rattle.ng_trace_plain.specs.Plain.{IsPlainTrace};

use crate::copies::copy_inputs;
use crate::making::run_plainly;
use ng_args::ReplayWords;
use ng_base::NoMemory;
use ng_machine::Input;
use ng_plan::node::Node;
use ng_replay::judge::one_verdict;
use ng_trace::trace_run;
use std::alloc::Global;

/// Makes the run of these inputs without workers, by what the words say, and gives the text of its trace. `stock` and
/// `again` are blank nodes of the same kinds in the same order: the run is made by the first, and followed by the second.
/// The file of a journal that the words name is not looked at.
///
/// # Errors
/// `NoMemory` where memory ran out, or where a count would be greater than 2^64 - 1.
pub fn trace_plainly<B: Node>(
    alloc: Global,
    words: &ReplayWords,
    stock: Vec<B>,
    again: Vec<B>,
    inputs: Vec<Input>,
) -> Result<Vec<u8>, NoMemory>
    requires stocked { IsStocked B.state stock.items }
    requires again { IsStocked B.state again.items }
    requires same { kinds_of B.state again.items ≡ kinds_of B.state stock.items }
    requires may { MayRun (setting_of (kinds_of B.state stock.items) (run_of words.now) inputs.items) }
    requires none { words.now.workers ≡ 0 }
    ensures { IfOk result (λ text. IsPlainTrace (kinds_of B.state stock.items) words.now inputs.items text.items) }
{
    let copies = copy_inputs(alloc, &inputs)?;
    let journal = run_plainly(alloc, words, stock, inputs)?;
    let (_verdict, text) = trace_run(alloc, words, again, copies, &journal)?;
    one_verdict();
    Ok(text)
}
