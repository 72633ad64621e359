// The files that a trace reads: those of a replay.
ghost use Rattle.std.specs.Prelude.{◌≡◌, ◌≤◌, ℕ, List, None, Ok, length, IfOk, IfErr};
ghost use Rattle.ng_call.specs.ending.Steps.{first_fault};
ghost use Rattle.ng_journal.specs.Reading.{journal_of};
ghost use Rattle.ng_call.specs.Found.{IsRead};
ghost use Rattle.ng_args.specs.declared.words.Source.TheVariants.{FromFiles as from_files};
ghost use Rattle.ng_call.specs.Parts.{AllPass, of_files};
ghost use Rattle.ng_trace_call.specs.PlainCall.{PlainStops};
ghost use Rattle.ng_replay.specs.Call.{journal_steps};
ghost use Rattle.ng_replay.specs.Parts.{AllRead, AllStop, Stops};

use crate::fault::replay_fault;
use ng_args::ReplayWords;
use ng_call::{ReadIn, read_files};
use ng_journal::kept::Journal;
use ng_journal::{JournalFault, read_journal};
use ng_outside::{Files, ReadStop, read_whole};
use ng_replay::{Given, ReplayFault};
use std::alloc::Global;

// A journal has at most so many bytes.
const MOST_JOURNAL: u64 = 536_870_912;

/// What a trace has read: the script and the captures, and the journal.
#[derive(Drop)]
pub(crate) struct ReadAll {
    pub given: ReadIn,
    pub journal: Journal,
}

// The journal of a file.
fn read_journal_file<F: Files>(
    alloc: Global,
    name: &str,
    files: &mut F,
) -> Result<Journal, ReplayFault>
    ensures ok { IfOk result (λ events. (bytes : List ℕ) × IsRead (F.contents files.old name.now) bytes
        × (first_fault (F.contents files.old) (journal_steps name.now bytes) ≡ None) × (journal_of bytes ≡ Ok events.items)) }
    ensures err { IfErr result (λ fault. (bytes : List ℕ) × IsRead (F.contents files.old name.now) bytes
        × Stops (of_files (F.contents files.old) (F.contents files.new) (F.faults files.old) (F.faults files.new)) (journal_steps name.now bytes) fault) }
    ensures same { F.contents files.new ≡ F.contents files.old }
    ensures counts { (other : List ℕ) → F.faults files.old other ≤ F.faults files.new other }
{
    let bytes = match read_whole(alloc, files, name, MOST_JOURNAL) {
        Ok(bytes) => bytes,
        Err(ReadStop::Fault) => return Err(ReplayFault::ReadFault(Given::Journal)),
        Err(ReadStop::TooBig) => return Err(ReplayFault::TooBig(Given::Journal)),
        Err(ReadStop::NoMemory) => return Err(ReplayFault::NoMemory),
    };
    match read_journal(alloc, &bytes) {
        Ok(events) => Ok(events),
        Err(JournalFault::BadLine(line)) => Err(ReplayFault::Journal(line)),
        Err(JournalFault::NoMemory) => Err(ReplayFault::NoMemory),
    }
}

/// The script, the captures and the journal that files hold.
///
/// # Errors
/// The first fault of them, or that of a read before it, or `NoMemory` where memory ran out.
pub(crate) fn read_all<F: Files>(
    alloc: Global,
    words: &ReplayWords,
    files: &mut F,
) -> Result<ReadAll, ReplayFault>
    requires few { length words.now.ports ≤ 64 }
    ensures ok { IfOk result (λ all. AllRead (F.contents files.old) words.now all.given.script.script all.given.script.commands.items all.given.captures.items all.journal.items) }
    ensures err { IfErr result (λ fault. AllStop (of_files (F.contents files.old) (F.contents files.new) (F.faults files.old) (F.faults files.new)) words.now fault) }
    ensures same { F.contents files.new ≡ F.contents files.old }
    ensures counts { (other : List ℕ) → F.faults files.old other ≤ F.faults files.new other }
{
    let given = match read_files(alloc, &words.script, words.ports.as_slice(), files) {
        Ok(given) => given,
        Err(fault) => return Err(replay_fault(fault)),
    };
    match read_journal_file(alloc, words.journal.as_str(), files) {
        Ok(journal) => Ok(ReadAll { given, journal }),
        Err(fault) => Err(fault),
    }
}

/// The script and the captures that files hold.
///
/// # Errors
/// The first fault of them, or that of a read before it, or `NoMemory` where memory ran out.
pub(crate) fn read_in<F: Files>(
    alloc: Global,
    words: &ReplayWords,
    files: &mut F,
) -> Result<ReadIn, ReplayFault>
    requires few { length words.now.ports ≤ 64 }
    ensures ok { IfOk result (λ read. AllPass (F.contents files.old) (from_files words.now.script words.now.ports)
        read.script.script read.script.commands.items read.captures.items) }
    ensures err { IfErr result (λ fault. PlainStops
        (of_files (F.contents files.old) (F.contents files.new) (F.faults files.old) (F.faults files.new)) words.now fault) }
    ensures same { F.contents files.new ≡ F.contents files.old }
    ensures counts { (other : List ℕ) → F.faults files.old other ≤ F.faults files.new other }
{
    match read_files(alloc, &words.script, words.ports.as_slice(), files) {
        Ok(read) => Ok(read),
        Err(fault) => Err(replay_fault(fault)),
    }
}
