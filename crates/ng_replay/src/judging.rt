// A journal is judged by a core that is made for it.
ghost use Rattle.std.specs.Prelude.{◌≡◌, ◌≤◌, length, map, IfOk};
ghost use Rattle.ng_replay.specs.judge.Verdict.{IsVerdict};
ghost use Rattle.ng_replay.specs.declared.judge.verdict.Verdict.TheVariants.{Yes};
ghost use Rattle.ng_machine.specs.Laws.{world_after};
ghost use Rattle.ng_replay.specs.Call.{run_of};
ghost use Rattle.ng_call.specs.Called.{kinds_of};
ghost use Rattle.ng_call.specs.MayRun.{MayRun};
ghost use Rattle.ng_call.specs.Run.{setting_of};
ghost use Rattle.ng_core.specs.Stocked.{IsStocked};
ghost use Rattle.ng_core.specs.CoreStory.{story};
ghost use Rattle.ng_machine.specs.story.Story.{world_of};

use crate::judge::{Verdict, judge};
use ng_args::{PortWord, ReplayWords};
use ng_base::{Name, NoMemory};
use ng_core::Core;
use ng_journal::kept::Journal;
use ng_machine::Input;
use ng_plan::node::Node;
use std::alloc::Global;

// The names of the ports, in order.
fn names_of(alloc: Global, ports: &[PortWord]) -> Result<Vec<Name>, NoMemory>
    ensures { IfOk result (λ names. names.items ≡ map (λ port. port.name) ports.now) }
{
    let mut names = Vec::new(alloc);
    for port in ports {
        names.push(port.name)?;
    }
    Ok(names)
}

/// Judges a journal for the run of these inputs by what the words say, with these blank nodes: the verdict, and the core that
/// stands where the run stands, if it is yes.
///
/// # Errors
/// `NoMemory` where memory ran out, and for nothing else.
pub(crate) fn judge_run<B: Node>(
    alloc: Global,
    words: &ReplayWords,
    stock: Vec<B>,
    inputs: Vec<Input>,
    journal: &Journal,
) -> Result<(Verdict, Core<B>), NoMemory>
    requires stocked { IsStocked B.state stock.items }
    requires may { MayRun (setting_of (kinds_of B.state stock.items) (run_of words.now) inputs.items) }
    requires workers { words.now.workers ≤ 16 }
    ensures verdict { IfOk result (λ judged. IsVerdict (setting_of (kinds_of B.state stock.items) (run_of words.now) inputs.items) journal.now.items judged.0) }
    ensures world { IfOk result (λ judged. judged.0 ≡ Yes → world_of (story judged.1) ≡ world_after (setting_of (kinds_of B.state stock.items) (run_of words.now) inputs.items) journal.now.items) }
    ensures ports { IfOk result (λ judged. judged.0 ≡ Yes → length judged.1.ports ≡ length words.now.ports) }
{
    let seats = words.workers + 1;
    let ports = names_of(alloc, words.ports.as_slice())?;
    let mut core = Core::new(alloc, words.own_name, ports, stock, words.budget, seats)?;
    let verdict = judge(alloc, &mut core, seats, inputs, journal)?;
    Ok((verdict, core))
}
