// A run of no workers is made for its journal.
ghost use Rattle.std.specs.Prelude.{◌≡◌, List, map, IfOk};
ghost use Rattle.ng_machine.specs.declared.input.Input.{Input as TheInput};
ghost use Rattle.ng_call.specs.Called.{kinds_of};
ghost use Rattle.ng_call.specs.MayRun.{MayRun};
ghost use Rattle.ng_call.specs.Run.{IsRun, setting_of};
ghost use Rattle.ng_core.specs.Stocked.{IsStocked};
ghost use Rattle.ng_replay.specs.Call.{run_of};
ghost use Rattle.ng_run.specs.Begun.{begun_by};

use ng_args::{PortWord, ReplayWords};
use ng_base::{Name, NoMemory};
use ng_core::Core;
use ng_journal::kept::Journal;
use ng_machine::Input;
use ng_plan::node::Node;
use ng_workers::pool::{plain, plainly_is_plain, plainly_is_whole};
use std::alloc::Global;

// The names of the ports, in order.
fn names_of(alloc: Global, ports: &[PortWord]) -> Result<Vec<Name>, NoMemory>
    ensures { IfOk result (λ names. names.items ≡ map (λ port. port.name) ports.now) }
{
    let mut names = Vec::new(alloc);
    for port in ports {
        names.push(port.name)?;
    }
    Ok(names)
}

// A core of one seat, with the name, the ports and the limit that the words say.
fn make_core<B: Node>(
    alloc: Global,
    words: &ReplayWords,
    stock: Vec<B>,
) -> Result<Core<B>, NoMemory>
    requires stocked { IsStocked B.state stock.items }
    requires may { (inputs : List TheInput) × MayRun (setting_of (kinds_of B.state stock.items) (run_of words.now) inputs) }
    ensures { IfOk result (λ core. core ≡ begun_by (kinds_of B.state stock.items) (run_of words.now) 1) }
{
    let ports = names_of(alloc, words.ports.as_slice())?;
    Core::new(alloc, words.own_name, ports, stock, words.budget, 1)
}

/// The journal of the run of these inputs, one thing after another.
///
/// # Errors
/// `NoMemory` where memory ran out, and for nothing else.
pub(crate) fn run_plainly<B: Node>(
    alloc: Global,
    words: &ReplayWords,
    stock: Vec<B>,
    inputs: Vec<Input>,
) -> Result<Journal, NoMemory>
    requires stocked { IsStocked B.state stock.items }
    requires may { MayRun (setting_of (kinds_of B.state stock.items) (run_of words.now) inputs.items) }
    requires none { words.now.workers ≡ 0 }
    ensures { IfOk result (λ journal. IsRun
        (setting_of (kinds_of B.state stock.items) (run_of words.now) inputs.items) words.now.workers journal.items) }
{
    let mut core = make_core(alloc, words, stock)?;
    plain(alloc, &mut core, inputs)?;
    plainly_is_plain();
    plainly_is_whole();
    let _journal = core.journal();
    Ok(core.into_journal())
}
