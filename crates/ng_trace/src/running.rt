// A journal is traced by a core that is made for it.
ghost use Rattle.std.specs.Prelude.{◌≡◌, ◌≤◌, map, IfOk};
ghost use Rattle.ng_replay.specs.judge.Verdict.{IsVerdict};
ghost use Rattle.ng_replay.specs.declared.judge.verdict.Verdict.TheVariants.{Yes};
ghost use Rattle.ng_replay.specs.Call.{run_of};
ghost use Rattle.ng_call.specs.Called.{kinds_of};
ghost use Rattle.ng_call.specs.MayRun.{MayRun};
ghost use Rattle.ng_call.specs.Run.{setting_of};
ghost use Rattle.ng_core.specs.Stocked.{IsStocked};
ghost use Rattle.ng_trace.specs.Trace.{trace_of};

use crate::trace;
use ng_args::{PortWord, ReplayWords};
use ng_base::{Name, NoMemory};
use ng_core::Core;
use ng_journal::kept::Journal;
use ng_machine::Input;
use ng_plan::node::Node;
use ng_replay::judge::Verdict;
use std::alloc::Global;

// The names of the ports, in order.
fn names_of(alloc: Global, ports: &[PortWord]) -> Result<Vec<Name>, NoMemory>
    ensures { IfOk result (λ names. names.items ≡ map (λ port. port.name) ports.now) }
{
    let mut names = Vec::new(alloc);
    for port in ports {
        names.push(port.name)?;
    }
    Ok(names)
}

/// Judges a journal for the run of these inputs by what the words of a replay say, with these blank nodes, and gives the text of its
/// trace, which is of use only after a `Yes`.
///
/// # Errors
/// `NoMemory` where memory ran out, or where a count would be greater than 2^64 - 1.
pub fn trace_run<B: Node>(
    alloc: Global,
    words: &ReplayWords,
    stock: Vec<B>,
    inputs: Vec<Input>,
    journal: &Journal,
) -> Result<(Verdict, Vec<u8>), NoMemory>
    requires stocked { IsStocked B.state stock.items }
    requires may { MayRun (setting_of (kinds_of B.state stock.items) (run_of words.now) inputs.items) }
    requires workers { words.now.workers ≤ 16 }
    ensures verdict { IfOk result (λ judged.
        IsVerdict (setting_of (kinds_of B.state stock.items) (run_of words.now) inputs.items) journal.now.items judged.0) }
    ensures text { IfOk result (λ judged. judged.0 ≡ Yes → judged.1.items
        ≡ trace_of (map (λ port. port.name) words.now.ports)
        (setting_of (kinds_of B.state stock.items) (run_of words.now) inputs.items) journal.now.items) }
{
    let seats = words.workers + 1;
    let ports = names_of(alloc, words.ports.as_slice())?;
    let names = names_of(alloc, words.ports.as_slice())?;
    let mut core = Core::new(alloc, words.own_name, ports, stock, words.budget, seats)?;
    let traced = trace(alloc, &mut core, seats, &names, inputs, journal)?;
    Ok(traced)
}
