// The top call: a run, a replay or a forecast, by the first word.
ghost use Rattle.std.specs.Prelude.{◌≡◌, drop};
ghost use Rattle.ng_call.specs.Called.{happened, kinds_of, texts};
ghost use Rattle.ng_core.specs.Stocked.{IsStocked};
ghost use Rattle.ng_top.specs.Top.{DidForecast, DidReplay, DidRun, IsTop, begins_with};

use ng_call::Ended;
use ng_forecast::{Forecast, ngforecast};
use ng_outside::{Files, Gate, Sink};
use ng_plan::node::Node;
use ng_replay::{Replayed, ngreplay};
use ng_run::ngrun;
use std::alloc::Global;
use std::sync::Wait;
use std::thread::Threads;

/// How the top call ended.
#[derive(Drop)]
pub enum Ran {
    /// A run.
    Run(Ended),
    /// A replay, where the first word is `--replay`.
    Replay(Replayed),
    /// A forecast, where the first word is `--forecast`.
    Forecast(Forecast),
}

fn begins_with(word: &str, words: &[String]) -> bool
    ensures { result ≡ begins_with word.now (texts words.now) }
{
    match words.split_first() {
        Some((first, _)) => first.as_str() == word,
        None => false,
    }
}

/// The words behind the first.
pub fn behind_first(words: &[String]) -> &[String]
    ensures { texts result.now ≡ drop 1 (texts words.now) }
{
    match words.split_first() {
        Some((_, others)) => others,
        None => &[],
    }
}

// A run of all words.
fn run<R: Threads + Wait + Sync, B: Node, F: Files, O: Sink, G: Gate + Sync>(
    rt: &R,
    alloc: Global,
    words: &[String],
    files: &mut F,
    out: &mut O,
    stock: Vec<B>,
    gate: &G,
) -> Ran
    requires stocked { IsStocked B.state stock.items }
    ensures did { DidRun (kinds_of B.state stock.items) (texts words.now)
        (happened O.contents O.faults F.contents F.faults out.old out.new files.old files.new) result }
{
    Ran::Run(ngrun(rt, alloc, words, files, out, stock, gate))
}

// A replay of the words behind the first.
fn replay<B: Node, F: Files, O: Sink>(
    alloc: Global,
    words: &[String],
    files: &mut F,
    out: &mut O,
    stock: Vec<B>,
) -> Ran
    requires stocked { IsStocked B.state stock.items }
    ensures did { DidReplay (kinds_of B.state stock.items) (texts words.now)
        (happened O.contents O.faults F.contents F.faults out.old out.new files.old files.new) result }
{
    Ran::Replay(ngreplay(alloc, behind_first(words), files, out, stock))
}

// A forecast of the words behind the first.
fn forecast<B: Node, F: Files, O: Sink>(
    alloc: Global,
    words: &[String],
    files: &mut F,
    out: &mut O,
    stock: Vec<B>,
) -> Ran
    requires stocked { IsStocked B.state stock.items }
    ensures did { DidForecast (kinds_of B.state stock.items) (texts words.now)
        (happened O.contents O.faults F.contents F.faults out.old out.new files.old files.new) result }
{
    Ran::Forecast(ngforecast(alloc, behind_first(words), files, out, stock))
}

/// What the words ask for: a replay where the first is `--replay`, a forecast where it is `--forecast`, each with
/// the words behind it (ng_replay, ng_forecast); else a run (ng_run). The text goes into `out`. `rt` starts the threads
/// of the workers of a run, and each item that these take passes `gate` before the work on it. `stock` are the blank
/// nodes, of types that a caller may have made: a socket and 64 ethers among them. Waits for the threads.
pub fn ngtop<R: Threads + Wait + Sync, B: Node, F: Files, O: Sink, G: Gate + Sync>(
    rt: &R,
    alloc: Global,
    words: &[String],
    files: &mut F,
    out: &mut O,
    stock: Vec<B>,
    gate: &G,
) -> Ran
    requires stocked { IsStocked B.state stock.items }
    ensures top { IsTop (kinds_of B.state stock.items) (texts words.now)
        (happened O.contents O.faults F.contents F.faults out.old out.new files.old files.new) result }
{
    if begins_with("--replay", words) {
        return replay(alloc, words, files, out, stock);
    }
    if begins_with("--forecast", words) {
        return forecast(alloc, words, files, out, stock);
    }
    run(rt, alloc, words, files, out, stock, gate)
}
