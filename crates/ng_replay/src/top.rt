// The top call.
ghost use Rattle.std.specs.Prelude.{ℕ, List, Some};
ghost use Rattle.ng_outside.specs.Contents.{Contents};
ghost use Rattle.ng_laws.specs.printable.Printable.{ToldIsPrintable};
ghost use Rattle.ng_laws.specs.printable.Scripts.{InputsAreFit, InputsAreOfScript, InputsAreTimed};
ghost use Rattle.ngctl_script.specs.Held.{AreCommands};
ghost use Rattle.ng_replay.specs.Behaves.{IsReplayCall};
ghost use Rattle.ng_replay.specs.Ends.{EndsAs};
ghost use Rattle.ng_replay.specs.Parts.{AllRead, IsReadOf};
ghost use Rattle.ng_replay.specs.Said.{InForm};
ghost use Rattle.ng_call.specs.Called.{happened, kinds_of, texts};
ghost use Rattle.ng_call.specs.Parts.{counting, outside, storing};
ghost use Rattle.ng_core.specs.Stocked.{IsStocked};
ghost use Rattle.ng_args.specs.Replay.{replay_words_of};

use crate::fault::ended_by;
use crate::judge::Verdict;
use crate::judging::judge_run;
use crate::reading::{ReadAll, read_all};
use crate::text::print_core;
use crate::{ReplayFault, Replayed};
use ng_args::{ReplayWords, read_replay_words};
use ng_call::{ReadIn, ReadScript, cuts_of};
use ng_laws::printable::{
    inputs_are_fit, inputs_are_of_script, inputs_are_timed, told_is_printable,
};
use ng_outside::{Files, Sink};
use ng_plan::node::Node;
use ngctl_print::PrintStop;
use ngctl_script::Script;
use ngctl_script::feed::inputs;
use std::alloc::Global;

// What is known of the inputs of a script.
fn know_inputs(script: &Script)
    ensures held { AreCommands script.now }
    ensures script { InputsAreOfScript }
    ensures fit { InputsAreFit }
    ensures timed { InputsAreTimed }
{
    let _commands = script.commands();
    inputs_are_of_script();
    inputs_are_fit();
    inputs_are_timed();
}

// Judges what was read, and writes the text of a journal that is accepted.
fn replay_read<B: Node, O: Sink>(
    alloc: Global,
    words: &ReplayWords,
    read: ReadAll,
    out: &mut O,
    stock: Vec<B>,
) -> Option<ReplayFault>
    requires form { InForm words.now }
    requires stocked { IsStocked B.state stock.items }
    requires read { (files : List ℕ → Contents) × IsReadOf files words.now read }
    ensures { (files : List ℕ → Contents) (before after : List ℕ → ℕ) → IsReadOf files words.now read
        → EndsAs (kinds_of B.state stock.items) (Some words.now)
        (outside (storing (O.contents out.old) files) (storing (O.contents out.new) files)
        (counting (O.faults out.old) before) (counting (O.faults out.new) after)) result }
{
    let ReadAll { given, journal } = read;
    let ReadIn { script, captures } = given;
    let ReadScript { script, commands } = script;
    let Ok(cuts) = cuts_of(alloc, &captures) else {
        return Some(ReplayFault::NoMemory);
    };
    know_inputs(&script);
    let Ok(inputs) = inputs(alloc, script, captures) else {
        return Some(ReplayFault::NoMemory);
    };
    let of = inputs.len() as u64;
    let Ok((verdict, core)) = judge_run(alloc, words, stock, inputs, &journal) else {
        return Some(ReplayFault::NoMemory);
    };
    if let Verdict::No { at } = verdict {
        return Some(ReplayFault::No { at });
    }
    told_is_printable();
    let ports = words.ports.as_slice();
    match print_core(alloc, &core, &journal, &commands, ports, &cuts, of, out) {
        Ok(()) => None,
        Err(PrintStop::Fault) => Some(ReplayFault::WriteFault),
        Err(PrintStop::NoMemory) => Some(ReplayFault::NoMemory),
    }
}

// What a call with these words does.
fn replay_words<B: Node, F: Files, O: Sink>(
    alloc: Global,
    words: &ReplayWords,
    files: &mut F,
    out: &mut O,
    stock: Vec<B>,
) -> Option<ReplayFault>
    requires form { InForm words.now }
    requires stocked { IsStocked B.state stock.items }
    ensures { EndsAs (kinds_of B.state stock.items) (Some words.now)
        (happened O.contents O.faults F.contents F.faults out.old out.new files.old files.new) result }
{
    match read_all(alloc, words, files) {
        Ok(read) => replay_read(alloc, words, read, out, stock),
        Err(fault) => Some(fault),
    }
}

// The call, and its fault.
fn replay_call<B: Node, F: Files, O: Sink>(
    alloc: Global,
    words: &[String],
    files: &mut F,
    out: &mut O,
    stock: Vec<B>,
) -> Option<ReplayFault>
    requires stocked { IsStocked B.state stock.items }
    ensures { EndsAs (kinds_of B.state stock.items) (replay_words_of (texts words.now))
        (happened O.contents O.faults F.contents F.faults out.old out.new files.old files.new) result }
{
    match read_replay_words(alloc, words) {
        Ok(Some(said)) => replay_words(alloc, &said, files, out, stock),
        Ok(None) => Some(ReplayFault::Usage),
        Err(_) => Some(ReplayFault::NoMemory),
    }
}

/// The call of a replay: reads the words, the script, the captures and the journal that they name, and says whether the
/// journal is one of the run of that script and those captures; if it is, it writes the text of that run into `out`.
///
/// The words are `BUDGET WORKERS NAME JOURNAL SCRIPT [PORT=IN ..]`. Refusals come in this order: the words (64); the
/// script, not read (66), too big or not in form (65); each capture, not read (66), too many bytes, not in form, too
/// many packets (65); the journal, not read (66), too big or not in form (65); the journal's first event that is not
/// allowed, or its end that is not that of the run (3). Then comes the write (74). 71 may stand in place of any.
/// `stock` are the blank nodes of the run.
pub fn ngreplay<B: Node, F: Files, O: Sink>(
    alloc: Global,
    words: &[String],
    files: &mut F,
    out: &mut O,
    stock: Vec<B>,
) -> Replayed
    requires stocked { IsStocked B.state stock.items }
    ensures { IsReplayCall (kinds_of B.state stock.items) (replay_words_of (texts words.now))
        (happened O.contents O.faults F.contents F.faults out.old out.new files.old files.new) result }
{
    ended_by(replay_call(alloc, words, files, out, stock))
}
