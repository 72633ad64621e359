// The top call.
ghost use Rattle.std.specs.Prelude.{◌≡◌, [], Some, if◌then◌else◌};
ghost use Rattle.std.specs.List.{list_any};
ghost use Rattle.ng_laws.specs.printable.Printable.{ToldIsPrintable, LeftIsWritable};
ghost use Rattle.ng_laws.specs.printable.Scripts.{InputsAreOfScript, InputsAreFit, InputsAreTimed};
ghost use Rattle.ngctl_script.specs.Held.{AreCommands};
ghost use Rattle.ng_call.specs.Writes.{is_stop, is_error};
ghost use Rattle.ng_core.specs.CoreStory.{story};
ghost use Rattle.ng_machine.specs.story.Story.{world_of};
ghost use Rattle.ng_args.specs.Run.{words_of, ports_from};
ghost use Rattle.ng_call.specs.Said.{InForm};
ghost use Rattle.ng_core.specs.Stocked.{IsStocked};
ghost use Rattle.ng_call.specs.Behaves.{IsRunCall};
ghost use Rattle.ng_call.specs.Call.{fault_status, run_task};
ghost use Rattle.ng_call.specs.Called.{happened, kinds_of, texts};
ghost use Rattle.ng_call.specs.Parts.{AllPass};
ghost use Rattle.ng_call.specs.ending.Task.{EndsBy, EndsWith};

use crate::making::run_core;
use crate::text::has_error;
use crate::write::write_all;
use ng_args::{PortWord, Source, Words, read_words};
use ng_call::{Ended, Fault, ReadIn, ReadScript, cuts_of, is_stopped, read_files, read_made};
use ng_core::Core;
use ng_journal::kept::Journal;
use ng_laws::printable::{
    inputs_are_fit, inputs_are_of_script, inputs_are_timed, left_is_writable, told_is_printable,
};
use ng_outside::{Files, Gate, Sink};
use ng_plan::node::Node;
use ngctl_script::Script;
use ngctl_script::feed::inputs;
use std::alloc::Global;
use std::sync::Wait;
use std::thread::Threads;

fn fault_status(fault: Fault) -> u8
    ensures { result ≡ fault_status fault }
{
    match fault {
        Fault::Usage => 64,
        Fault::Script(_) | Fault::Capture { .. } | Fault::TooBig(_) => 65,
        Fault::ReadFault(_) => 66,
        Fault::WriteFault(_) => 74,
        Fault::NoMemory => 71,
    }
}

// The end of a call by a fault, and the journal that there is.
fn ended_by(fault: Fault, journal: Journal) -> Ended
    ensures status { result.status ≡ fault_status fault }
    ensures journal { result.journal.items ≡ journal.items }
    ensures fault { result.fault ≡ Some fault }
{
    Ended {
        status: fault_status(fault),
        journal,
        fault: Some(fault),
    }
}

// The end of a call that is refused before it runs.
fn refused(alloc: Global, fault: Fault) -> Ended
    ensures status { result.status ≡ fault_status fault }
    ensures journal { result.journal.items ≡ [] }
    ensures fault { result.fault ≡ Some fault }
{
    ended_by(fault, Journal::new(alloc))
}

// What is known of the inputs of a script.
fn know_inputs(script: &Script)
    ensures held { AreCommands script.now }
    ensures script { InputsAreOfScript }
    ensures fit { InputsAreFit }
    ensures timed { InputsAreTimed }
{
    let _commands = script.commands();
    inputs_are_of_script();
    inputs_are_fit();
    inputs_are_timed();
}

// What is known of each run.
fn know_run()
    ensures told { ToldIsPrintable }
    ensures left { LeftIsWritable }
{
    told_is_printable();
    left_is_writable();
}

// 0, 1 where an errno was told, 2 where the run stopped at its limit.
fn run_status<B: Node>(core: &Core<B>) -> u8
    ensures { result ≡ (if list_any is_stop core.now.journal then 2
        else if list_any is_error (world_of (story core.now)).told then 1 else 0) }
{
    if is_stopped(core.journal()) {
        2
    } else if has_error(core.told()) {
        1
    } else {
        0
    }
}

// Runs what was read, and writes what comes of it. Where memory runs out within the run, nothing is written, and the
// journal of what was done until then comes back.
fn run_read<R: Threads + Wait + Sync, B: Node, F: Files, O: Sink, G: Gate + Sync>(
    rt: &R,
    alloc: Global,
    words: &Words,
    ports: &[PortWord],
    read: ReadIn,
    files: &mut F,
    out: &mut O,
    stock: Vec<B>,
    gate: &G,
) -> Ended
    requires stocked { IsStocked B.state stock.items }
    requires form { InForm words.now }
    requires ports { ports.now ≡ ports_from words.now.source }
    requires read { AllPass (F.contents files.old) words.now.source
        read.script.script read.script.commands.items read.captures.items }
    ensures { EndsWith (run_task (kinds_of B.state stock.items)) words.now
        (happened O.contents O.faults F.contents F.faults out.old out.new files.old files.new)
        result.status result.journal.items result.fault }
{
    let ReadIn { script, captures } = read;
    let ReadScript { script, commands } = script;
    let Ok(cuts) = cuts_of(alloc, &captures) else {
        return refused(alloc, Fault::NoMemory);
    };
    know_inputs(&script);
    let Ok(inputs) = inputs(alloc, script, captures) else {
        return refused(alloc, Fault::NoMemory);
    };
    let of = inputs.len() as u64;
    let core = match run_core(rt, alloc, words, stock, inputs, gate) {
        Ok(core) => core,
        Err(journal) => return ended_by(Fault::NoMemory, journal),
    };
    know_run();
    let status = run_status(&core);
    let wrote = write_all(
        alloc,
        &core,
        &commands,
        ports,
        &cuts,
        of,
        &words.journal,
        files,
        out,
    );
    match wrote {
        Ok(()) => Ended {
            status,
            journal: core.into_journal(),
            fault: None,
        },
        Err(fault) => Ended {
            status: fault_status(fault),
            journal: core.into_journal(),
            fault: Some(fault),
        },
    }
}

// What a call with these words does.
fn run_words<R: Threads + Wait + Sync, B: Node, F: Files, O: Sink, G: Gate + Sync>(
    rt: &R,
    alloc: Global,
    words: &Words,
    files: &mut F,
    out: &mut O,
    stock: Vec<B>,
    gate: &G,
) -> Ended
    requires stocked { IsStocked B.state stock.items }
    requires form { InForm words.now }
    ensures { EndsWith (run_task (kinds_of B.state stock.items)) words.now
        (happened O.contents O.faults F.contents F.faults out.old out.new files.old files.new)
        result.status result.journal.items result.fault }
{
    match &words.source {
        Source::FromFiles { script, ports } => {
            match read_files(alloc, script, ports.as_slice(), files) {
                Ok(read) => run_read(
                    rt,
                    alloc,
                    words,
                    ports.as_slice(),
                    read,
                    files,
                    out,
                    stock,
                    gate,
                ),
                Err(fault) => refused(alloc, fault),
            }
        }
        Source::Made(packets) => match read_made(alloc, *packets) {
            Ok((read, ports)) => run_read(rt, alloc, words, &ports, read, files, out, stock, gate),
            Err(_) => refused(alloc, Fault::NoMemory),
        },
    }
}

// The call, and its end.
fn run_call<R: Threads + Wait + Sync, B: Node, F: Files, O: Sink, G: Gate + Sync>(
    rt: &R,
    alloc: Global,
    words: &[String],
    files: &mut F,
    out: &mut O,
    stock: Vec<B>,
    gate: &G,
) -> Ended
    requires stocked { IsStocked B.state stock.items }
    ensures { EndsBy (run_task (kinds_of B.state stock.items)) (words_of (texts words.now))
        (happened O.contents O.faults F.contents F.faults out.old out.new files.old files.new)
        result.status result.journal.items result.fault }
{
    match read_words(alloc, words) {
        Ok(Some(said)) => run_words(rt, alloc, &said, files, out, stock, gate),
        Ok(None) => refused(alloc, Fault::Usage),
        Err(_) => refused(alloc, Fault::NoMemory),
    }
}

/// The call of a run: reads the words, the script and the captures that they name, runs them, and writes the text of
/// the run into `out`, the captures that leave, in order of ports, and the journal.
///
/// The words are `[-w WORKERS] [-b BUDGET] [-n NAME] [-j JOURNAL] SCRIPT [PORT=IN,OUT ..]`, or `-g N` in place of
/// SCRIPT and the ports. Refusals come in this order: the words (64); the script, not read (66), too big or not in form
/// (65); each capture, not read (66), too many bytes, not in form, too many packets (65). Then come the run and the
/// writes (74). 71 may stand in place of any: where memory runs out within the run nothing is written, and the journal
/// of what was done until then comes back. `stock` are the blank nodes: a socket and 64 ethers among them. `rt` starts
/// a thread for each worker, and each item that a worker takes passes `gate` before the work on it. Waits for the
/// threads.
///
/// Its clause is one record, `IsRunCall`: what holds of each call of a task (`Behaves`), that without workers the
/// journal is the plain one, and that it keeps the laws however the call ends.
pub fn ngrun<R: Threads + Wait + Sync, B: Node, F: Files, O: Sink, G: Gate + Sync>(
    rt: &R,
    alloc: Global,
    words: &[String],
    files: &mut F,
    out: &mut O,
    stock: Vec<B>,
    gate: &G,
) -> Ended
    requires stocked { IsStocked B.state stock.items }
    ensures { IsRunCall (kinds_of B.state stock.items) (words_of (texts words.now))
        (happened O.contents O.faults F.contents F.faults out.old out.new files.old files.new) result }
{
    run_call(rt, alloc, words, files, out, stock, gate)
}
