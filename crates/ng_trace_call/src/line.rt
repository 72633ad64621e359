// The line that tells a fault.
ghost use Rattle.std.specs.Prelude.{◌≡◌, ◌++◌, map, string_bytes, IfOk, OnOk, OnErr};
ghost use Rattle.ng_replay.specs.Line.{said_as, which_of};
ghost use Rattle.ng_trace_call.specs.Line.{own_words, trace_line, words_by};
ghost use Rattle.ng_replay.specs.Call.{run_of};
ghost use Rattle.ng_trace_call.specs.Words.{bare_of, run_words, trace_words_of};
ghost use Rattle.std.specs.Option.{option_map};

use crate::{TraceWords, read_trace_words};
use ng_args::{ReplayWords, Source, Words};
use ng_base::NoMemory;
use ng_call::{Fault, Which, fault_words};
use ng_replay::{Given, ReplayFault};
use std::alloc::{AllocError, Global};

const USAGE: &str =
    "usage: ngtrace [-b BUDGET] [-n NAME] [-j JOURNAL [-w WORKERS]] SCRIPT [PORT=IN ..]";

// The words of a run that wrote this journal.
fn run_of(words: ReplayWords) -> Words
    ensures { result ≡ run_of words }
{
    let ReplayWords {
        budget,
        workers,
        own_name,
        journal,
        script,
        ports,
    } = words;
    Words {
        workers,
        budget,
        own_name,
        journal: Some(journal),
        source: Source::FromFiles { script, ports },
    }
}

// Those of a run that wrote none.
fn bare_of(words: ReplayWords) -> Words
    ensures { result ≡ bare_of words }
{
    let ReplayWords {
        budget,
        workers,
        own_name,
        journal: _,
        script,
        ports,
    } = words;
    Words {
        workers,
        budget,
        own_name,
        journal: None,
        source: Source::FromFiles { script, ports },
    }
}

// The words of the run that a trace is of, moved.
fn run_words(words: TraceWords) -> Words
    ensures { result ≡ run_words words }
{
    match words {
        TraceWords::Follow(words) => run_of(words),
        TraceWords::Plain(words) => bare_of(words),
    }
}

fn which_of(given: Given) -> Which
    ensures { result ≡ which_of given }
{
    match given {
        Given::Script => Which::Script,
        Given::Capture(port) => Which::Capture(port),
        Given::Journal => Which::Journal,
    }
}

// What is said of a fault of a run that stands for one of a trace, or none.
fn said_as(fault: ReplayFault) -> Option<Fault>
    ensures { result ≡ said_as fault }
{
    match fault {
        ReplayFault::Script(fault) => Some(Fault::Script(fault)),
        ReplayFault::Capture { port, why } => Some(Fault::Capture { port, why }),
        ReplayFault::TooBig(given) => Some(Fault::TooBig(which_of(given))),
        ReplayFault::ReadFault(given) => Some(Fault::ReadFault(which_of(given))),
        ReplayFault::WriteFault => Some(Fault::WriteFault(Which::Sink)),
        ReplayFault::NoMemory => Some(Fault::NoMemory),
        ReplayFault::Usage | ReplayFault::Journal(_) | ReplayFault::No { .. } => None,
    }
}

// What is said of a fault that no run has.
fn own_words(alloc: Global, fault: ReplayFault) -> Result<String, AllocError>
    ensures { IfOk result (λ said. string_bytes said ≡ own_words fault) }
{
    match fault {
        ReplayFault::Usage => format!(in alloc; "{USAGE}"),
        ReplayFault::Journal(line) => format!(in alloc; "journal line {line}"),
        ReplayFault::No { at } => format!(in alloc; "journal refused at event {at}"),
        _ => format!(in alloc; ""),
    }
}

// What is said of a fault.
fn trace_words(
    alloc: Global,
    fault: ReplayFault,
    words: &Option<Words>,
) -> Result<Vec<u8>, AllocError>
    ensures { IfOk result (λ said. said.items ≡ words_by (said_as fault) fault words.now) }
{
    match said_as(fault) {
        Some(fault) => fault_words(alloc, fault, words),
        None => {
            let said = own_words(alloc, fault)?;
            Vec::from_slice(alloc, said.as_bytes())
        }
    }
}

// The words of the run, where those of the trace are in form.
fn read_run_of(alloc: Global, words: &[String]) -> Result<Option<Words>, NoMemory>
    ensures { IfOk result (λ said. said ≡ option_map run_words (trace_words_of (map (λ word. string_bytes word) words.now))) }
{
    match read_trace_words(alloc, words)? {
        Some(said) => Ok(Some(run_words(said))),
        None => Ok(None),
    }
}

/// Appends the line that tells a fault of a trace, with its LF: `ngtrace: ` and what is said of the fault. `words` are those of
/// the call; a file or a port that they do not have is told without a name.
///
/// # Errors
/// `NoMemory` where memory ran out, and for nothing else; `out` is as before then.
pub fn trace_fault_line(
    alloc: Global,
    fault: &ReplayFault,
    words: &[String],
    out: &mut Vec<u8>,
) -> Result<(), NoMemory>
    ensures line { OnOk result (out.new.items ≡ out.old.items ++ trace_line fault.now (trace_words_of (map (λ word. string_bytes word) words.now))) }
    ensures same { OnErr result (out.new.items ≡ out.old.items) }
{
    let words = read_run_of(alloc, words)?;
    let said = trace_words(alloc, *fault, &words)?;
    let mut line = Vec::from_slice(alloc, b"ngtrace: ")?;
    line.extend_from_slice(&said)?;
    line.push(b'\n')?;
    out.extend_from_slice(&line)?;
    Ok(())
}
