// The top call.
ghost use Rattle.std.specs.Prelude.{◌≡◌, ℕ, List, Some};
ghost use Rattle.ng_outside.specs.Contents.{Contents};
ghost use Rattle.ng_laws.specs.printable.Scripts.{InputsAreFit, InputsAreOfScript, InputsAreTimed};
ghost use Rattle.ngctl_script.specs.Held.{AreCommands};
ghost use Rattle.ng_call.specs.Called.{happened, kinds_of, texts};
ghost use Rattle.ng_args.specs.declared.words.Source.TheVariants.{FromFiles as from_files};
ghost use Rattle.ng_call.specs.Parts.{AllPass, counting, outside, storing};
ghost use Rattle.ng_core.specs.Stocked.{IsStocked};
ghost use Rattle.ng_replay.specs.Parts.{AllRead, IsReadOf};
ghost use Rattle.ng_replay.specs.Said.{InForm};
ghost use Rattle.ng_trace_call.specs.Ends.{EndsAs};
ghost use Rattle.ng_trace_call.specs.PlainCall.{PlainEnds};
ghost use Rattle.ng_trace_call.specs.Traced.{IsPlainForm, IsTraced, SaidInForm, TracedEnds};
ghost use Rattle.ng_trace_call.specs.Words.{trace_words_of};

use crate::fault::ended_by;
use crate::reading::{ReadAll, read_all, read_in};
use crate::{TraceWords, read_trace_words};
use ng_args::ReplayWords;
use ng_call::{ReadIn, ReadScript};
use ng_laws::printable::{inputs_are_fit, inputs_are_of_script, inputs_are_timed};
use ng_outside::{Files, Sink, put_all};
use ng_plan::node::Node;
use ng_replay::judge::Verdict;
use ng_replay::{ReplayFault, Replayed};
use ng_trace::trace_run;
use ng_trace_plain::trace_plainly;
use ngctl_script::Script;
use ngctl_script::feed::inputs;
use std::alloc::Global;

// What is known of the inputs of a script.
fn know_inputs(script: &Script)
    ensures held { AreCommands script.now }
    ensures script { InputsAreOfScript }
    ensures fit { InputsAreFit }
    ensures timed { InputsAreTimed }
{
    let _commands = script.commands();
    inputs_are_of_script();
    inputs_are_fit();
    inputs_are_timed();
}

// Judges what was read, and writes the trace of a journal that is accepted.
fn trace_read<B: Node, O: Sink>(
    alloc: Global,
    words: &ReplayWords,
    read: ReadAll,
    out: &mut O,
    stock: Vec<B>,
) -> Option<ReplayFault>
    requires form { InForm words.now }
    requires stocked { IsStocked B.state stock.items }
    requires read { (files : List ℕ → Contents) × AllRead files words.now read.given.script.script
        read.given.script.commands.items read.given.captures.items read.journal.items }
    ensures { (files : List ℕ → Contents) (before after : List ℕ → ℕ)
        → AllRead files words.now read.given.script.script
        read.given.script.commands.items read.given.captures.items read.journal.items
        → EndsAs (kinds_of B.state stock.items) (Some words.now)
        (outside (storing (O.contents out.old) files) (storing (O.contents out.new) files)
        (counting (O.faults out.old) before) (counting (O.faults out.new) after)) result }
{
    let ReadAll { given, journal } = read;
    let ReadIn { script, captures } = given;
    let ReadScript { script, .. } = script;
    know_inputs(&script);
    let Ok(inputs) = inputs(alloc, script, captures) else {
        return Some(ReplayFault::NoMemory);
    };
    let Ok((verdict, text)) = trace_run(alloc, words, stock, inputs, &journal) else {
        return Some(ReplayFault::NoMemory);
    };
    if let Verdict::No { at } = verdict {
        return Some(ReplayFault::No { at });
    }
    match put_all(out, &text) {
        Ok(()) => None,
        Err(_) => Some(ReplayFault::WriteFault),
    }
}

// What a call with these words does.
fn trace_words<B: Node, F: Files, O: Sink>(
    alloc: Global,
    words: &ReplayWords,
    files: &mut F,
    out: &mut O,
    stock: Vec<B>,
) -> Option<ReplayFault>
    requires form { InForm words.now }
    requires stocked { IsStocked B.state stock.items }
    ensures { EndsAs (kinds_of B.state stock.items) (Some words.now)
        (happened O.contents O.faults F.contents F.faults out.old out.new files.old files.new) result }
{
    match read_all(alloc, words, files) {
        Ok(read) => trace_read(alloc, words, read, out, stock),
        Err(fault) => Some(fault),
    }
}

// Makes the run of what was read, and writes its trace.
fn plain_read<B: Node, O: Sink>(
    alloc: Global,
    words: &ReplayWords,
    read: ReadIn,
    out: &mut O,
    stock: Vec<B>,
    again: Vec<B>,
) -> Option<ReplayFault>
    requires form { IsPlainForm words.now }
    requires stocked { IsStocked B.state stock.items }
    requires again { IsStocked B.state again.items }
    requires same { kinds_of B.state again.items ≡ kinds_of B.state stock.items }
    requires read { (files : List ℕ → Contents) × AllPass files (from_files words.now.script words.now.ports)
        read.script.script read.script.commands.items read.captures.items }
    ensures { (files : List ℕ → Contents) (before after : List ℕ → ℕ)
        → AllPass files (from_files words.now.script words.now.ports)
        read.script.script read.script.commands.items read.captures.items
        → PlainEnds (kinds_of B.state stock.items) words.now
        (outside (storing (O.contents out.old) files) (storing (O.contents out.new) files)
        (counting (O.faults out.old) before) (counting (O.faults out.new) after)) result }
{
    let ReadIn { script, captures } = read;
    let ReadScript { script, .. } = script;
    know_inputs(&script);
    let Ok(inputs) = inputs(alloc, script, captures) else {
        return Some(ReplayFault::NoMemory);
    };
    let Ok(told) = trace_plainly(alloc, words, stock, again, inputs) else {
        return Some(ReplayFault::NoMemory);
    };
    match put_all(out, &told) {
        Ok(()) => None,
        Err(_) => Some(ReplayFault::WriteFault),
    }
}

// What a call with these words and no journal does.
fn plain_words<B: Node, F: Files, O: Sink>(
    alloc: Global,
    words: &ReplayWords,
    files: &mut F,
    out: &mut O,
    stock: Vec<B>,
    again: Vec<B>,
) -> Option<ReplayFault>
    requires form { IsPlainForm words.now }
    requires stocked { IsStocked B.state stock.items }
    requires again { IsStocked B.state again.items }
    requires same { kinds_of B.state again.items ≡ kinds_of B.state stock.items }
    ensures { PlainEnds (kinds_of B.state stock.items) words.now
        (happened O.contents O.faults F.contents F.faults out.old out.new files.old files.new) result }
{
    match read_in(alloc, words, files) {
        Ok(read) => plain_read(alloc, words, read, out, stock, again),
        Err(fault) => Some(fault),
    }
}

// What a call with words in form does.
fn trace_said<B: Node, F: Files, O: Sink>(
    alloc: Global,
    said: &TraceWords,
    files: &mut F,
    out: &mut O,
    stock: Vec<B>,
    again: Vec<B>,
) -> Option<ReplayFault>
    requires form { SaidInForm said.now }
    requires stocked { IsStocked B.state stock.items }
    requires again { IsStocked B.state again.items }
    requires same { kinds_of B.state again.items ≡ kinds_of B.state stock.items }
    ensures { TracedEnds (kinds_of B.state stock.items) (Some said.now)
        (happened O.contents O.faults F.contents F.faults out.old out.new files.old files.new) result }
{
    match said {
        TraceWords::Follow(words) => trace_words(alloc, words, files, out, stock),
        TraceWords::Plain(words) => plain_words(alloc, words, files, out, stock, again),
    }
}

// The call, and its fault.
fn trace_call<B: Node, F: Files, O: Sink>(
    alloc: Global,
    words: &[String],
    files: &mut F,
    out: &mut O,
    stock: Vec<B>,
    again: Vec<B>,
) -> Option<ReplayFault>
    requires stocked { IsStocked B.state stock.items }
    requires again { IsStocked B.state again.items }
    requires same { kinds_of B.state again.items ≡ kinds_of B.state stock.items }
    ensures { TracedEnds (kinds_of B.state stock.items) (trace_words_of (texts words.now))
        (happened O.contents O.faults F.contents F.faults out.old out.new files.old files.new) result }
{
    match read_trace_words(alloc, words) {
        Ok(Some(said)) => trace_said(alloc, &said, files, out, stock, again),
        Ok(None) => Some(ReplayFault::Usage),
        Err(_) => Some(ReplayFault::NoMemory),
    }
}

/// The call of a trace: reads the words, the script, the captures and the journal that they name, and says whether the
/// journal is one of the run of that script and those captures; if it is, it writes the trace of that run into `out`:
/// each packet that reached nothing and where its copies ended, and then the sums. Where no journal is named, the run of
/// no workers is made and traced.
///
/// The words are `[-b BUDGET] [-n NAME] [-j JOURNAL [-w WORKERS]] SCRIPT [PORT=IN ..]`. Refusals come in this order: the
/// words (64); the script, not read (66), too big or not in form (65); each capture, not read (66), too many bytes, not
/// in form, too many packets (65); the journal, not read (66), too big or not in form (65); the journal's first event
/// that is not allowed, or its end that is not that of the run (3). Then comes the write (74). 71 may stand in place of
/// any. `stock` are the blank nodes of the run, and `again` are others of the same kinds in the same order.
pub fn ngtrace<B: Node, F: Files, O: Sink>(
    alloc: Global,
    words: &[String],
    files: &mut F,
    out: &mut O,
    stock: Vec<B>,
    again: Vec<B>,
) -> Replayed
    requires stocked { IsStocked B.state stock.items }
    requires again { IsStocked B.state again.items }
    requires same { kinds_of B.state again.items ≡ kinds_of B.state stock.items }
    ensures { IsTraced (kinds_of B.state stock.items) (trace_words_of (texts words.now))
        (happened O.contents O.faults F.contents F.faults out.old out.new files.old files.new) result }
{
    ended_by(trace_call(alloc, words, files, out, stock, again))
}
