// A core is made and runs all inputs.
ghost use Rattle.std.specs.Prelude.{◌≡◌, ◌<◌, ◌≤◌, ◌+◌, List, length, map, IfOk, IfErr};
ghost use Rattle.ng_machine.specs.declared.input.Input.{Input as TheInput};
ghost use Rattle.ng_machine.specs.Laws.{IsJournal, world_after};
ghost use Rattle.ng_machine.specs.State.{kind_of};
ghost use Rattle.ng_core.specs.Stocked.{IsStocked};
ghost use Rattle.ng_run.specs.Begun.{begun_by};
ghost use Rattle.ng_core.specs.CoreStory.{story};
ghost use Rattle.ng_machine.specs.story.Story.{world_of};
ghost use Rattle.ng_args.specs.Run.{ports_from};
ghost use Rattle.ng_call.specs.MayRun.{MayRun};
ghost use Rattle.ng_call.specs.Run.{IsRun, setting_of};

use ng_args::Words;
use ng_base::NoMemory;
use ng_call::port_names;
use ng_core::Core;
use ng_journal::kept::Journal;
use ng_machine::Input;
use ng_outside::Gate;
use ng_plan::node::Node;
use ng_workers::pool::{partly_is_orderly, plain, plainly_is_plain, plainly_is_whole};
use ng_workers::{ran_is_orderly, ran_is_whole, run_workers};
use std::alloc::Global;
use std::sync::Wait;
use std::thread::Threads;

// A core of these blank nodes and so many seats, with the name, the ports and the limit that the words say, and with room for
// the inputs that it is to get.
fn make_core<B: Node>(
    alloc: Global,
    words: &Words,
    stock: Vec<B>,
    seats: u32,
    expected: usize,
) -> Result<Core<B>, NoMemory>
    requires stocked { IsStocked B.state stock.items }
    requires may { (inputs : List TheInput) × MayRun (setting_of (map (λ b. kind_of (B.state b)) stock.items) words.now inputs) }
    requires some { 0 < seats }
    ensures made { IfOk result (λ core. core ≡ begun_by (map (λ b. kind_of (B.state b)) stock.items) words.now seats) }
{
    let ports = port_names(alloc, &words.source)?;
    let mut core = Core::new(alloc, words.own_name, ports, stock, words.budget, seats)?;
    core.expect(expected);
    Ok(core)
}

// One thing after another, by the first of so many seats. Where memory ran out, the journal of what was done until
// then.
fn run_plainly<B: Node>(
    alloc: Global,
    words: &Words,
    stock: Vec<B>,
    inputs: Vec<Input>,
    seats: u32,
) -> Result<Core<B>, Journal>
    requires stocked { IsStocked B.state stock.items }
    requires may { MayRun (setting_of (map (λ b. kind_of (B.state b)) stock.items) words.now inputs.items) }
    requires seats { seats ≡ words.now.workers + 1 }
    requires none { words.now.workers ≡ 0 }
    ensures run { IfOk result (λ core. IsRun (setting_of (map (λ b. kind_of (B.state b)) stock.items) words.now inputs.items) words.now.workers core.journal) }
    ensures ports { IfOk result (λ core. length (world_of (story core)).ports ≡ length (ports_from words.now.source)) }
    ensures world { IfOk result (λ core. world_of (story core) ≡ world_after (setting_of (map (λ b. kind_of (B.state b)) stock.items) words.now inputs.items) core.journal) }
    ensures part { IfErr result (λ journal.
        IsJournal (setting_of (map (λ b. kind_of (B.state b)) stock.items) words.now inputs.items) journal.items) }
{
    let Ok(mut core) = make_core(alloc, words, stock, seats, inputs.len()) else {
        return Err(Journal::new(alloc));
    };
    match plain(alloc, &mut core, inputs) {
        Ok(()) => {
            plainly_is_plain();
            plainly_is_whole();
            let _journal = core.journal();
            Ok(core)
        }
        Err(NoMemory) => {
            partly_is_orderly();
            let _journal = core.journal();
            Err(core.into_journal())
        }
    }
}

// The first seat in this thread, and each worker in a thread of its own. Where memory ran out, the journal of what was
// done until then.
fn run_beside<R: Threads + Wait + Sync, B: Node, G: Gate + Sync>(
    rt: &R,
    alloc: Global,
    words: &Words,
    stock: Vec<B>,
    inputs: Vec<Input>,
    seats: u32,
    gate: &G,
) -> Result<Core<B>, Journal>
    requires stocked { IsStocked B.state stock.items }
    requires may { MayRun (setting_of (map (λ b. kind_of (B.state b)) stock.items) words.now inputs.items) }
    requires seats { seats ≡ words.now.workers + 1 }
    requires some { 0 < words.now.workers }
    ensures run { IfOk result (λ core. IsRun (setting_of (map (λ b. kind_of (B.state b)) stock.items) words.now inputs.items) words.now.workers core.journal) }
    ensures ports { IfOk result (λ core. length (world_of (story core)).ports ≡ length (ports_from words.now.source)) }
    ensures world { IfOk result (λ core. world_of (story core) ≡ world_after (setting_of (map (λ b. kind_of (B.state b)) stock.items) words.now inputs.items) core.journal) }
    ensures part { IfErr result (λ journal.
        IsJournal (setting_of (map (λ b. kind_of (B.state b)) stock.items) words.now inputs.items) journal.items) }
{
    let Ok(begun) = make_core(alloc, words, stock, seats, inputs.len()) else {
        return Err(Journal::new(alloc));
    };
    match run_workers(rt, alloc, begun, seats, inputs, gate) {
        Ok(core) => {
            ran_is_whole();
            let _journal = core.journal();
            Ok(core)
        }
        Err(core) => {
            ran_is_orderly();
            let _journal = core.journal();
            Err(core.into_journal())
        }
    }
}

/// A core of these blank nodes runs the inputs by what the words say: without workers one thing after another, else by as many
/// threads beside this one as there are workers. With workers each item passes the gate between its take and the work on it.
/// Waits for the threads.
///
/// # Errors
/// The journal of what was done until memory ran out, and for nothing else. It has no event where there was no memory
/// for the core.
pub fn run_core<R: Threads + Wait + Sync, B: Node, G: Gate + Sync>(
    rt: &R,
    alloc: Global,
    words: &Words,
    stock: Vec<B>,
    inputs: Vec<Input>,
    gate: &G,
) -> Result<Core<B>, Journal>
    requires stocked { IsStocked B.state stock.items }
    requires may { MayRun (setting_of (map (λ b. kind_of (B.state b)) stock.items) words.now inputs.items) }
    requires few { words.now.workers ≤ 16 }
    ensures run { IfOk result (λ core. IsRun (setting_of (map (λ b. kind_of (B.state b)) stock.items) words.now inputs.items) words.now.workers core.journal) }
    ensures ports { IfOk result (λ core. length (world_of (story core)).ports ≡ length (ports_from words.now.source)) }
    ensures world { IfOk result (λ core. world_of (story core) ≡ world_after (setting_of (map (λ b. kind_of (B.state b)) stock.items) words.now inputs.items) core.journal) }
    ensures part { IfErr result (λ journal.
        IsJournal (setting_of (map (λ b. kind_of (B.state b)) stock.items) words.now inputs.items) journal.items) }
{
    let seats = words.workers + 1;
    if words.workers == 0 {
        return run_plainly(alloc, words, stock, inputs, seats);
    }
    run_beside(rt, alloc, words, stock, inputs, seats, gate)
}
