// What a forecast reads.
ghost use Rattle.std.specs.Prelude.{◌≡◌, ◌≤◌, ℕ, List, length, IfOk, IfErr};
ghost use Rattle.ng_call.specs.Parts.{of_files};
ghost use Rattle.ng_forecast.specs.Moving.{is_between, moving};
ghost use Rattle.ngctl_script.specs.Script.{is_quit};
ghost use Rattle.ng_forecast.specs.Parts.{IsReadIn, ReadStops, fault_of, source_of};

use crate::{ForecastFault, Source};
use ng_args::ForecastWords;
use ng_call::{Fault, Which, read_ports, read_script_file};
use ng_machine::{Command, What};
use ng_outside::Files;
use ng_pcap::Capture;
use ngctl_script::{Script, When};
use std::alloc::Global;

/// What was read: the script, and a capture for each port.
#[derive(Drop)]
pub(crate) struct ReadIn {
    pub script: Script,
    pub captures: Vec<Capture>,
}

// The file of a run as one of a forecast, which reads no other than these.
fn source_of(which: Which) -> Source
    ensures { result ≡ source_of which }
{
    match which {
        Which::Capture(port) => Source::Capture(port),
        Which::Script | Which::Sink | Which::Leaving(_) | Which::Journal => Source::Script,
    }
}

// The fault of a read of a run as one of a forecast.
fn fault_of(fault: Fault) -> ForecastFault
    ensures { result ≡ fault_of fault }
{
    match fault {
        Fault::Usage => ForecastFault::Usage,
        Fault::Script(why) => ForecastFault::Script(why),
        Fault::Capture { port, why } => ForecastFault::Capture { port, why },
        Fault::TooBig(which) => ForecastFault::TooBig(source_of(which)),
        Fault::ReadFault(which) => ForecastFault::ReadFault(source_of(which)),
        Fault::WriteFault(_) => ForecastFault::WriteFault,
        Fault::NoMemory => ForecastFault::NoMemory,
    }
}

// Whether a time is behind a mark with a number, and not behind `@end`.
fn is_between(when: When) -> bool
    ensures { result ≡ is_between when }
{
    match when {
        When::After(_) => true,
        When::First | When::Late => false,
    }
}

fn is_quit(command: &Command) -> bool
    ensures { result ≡ is_quit command.now.what }
{
    match command.what {
        What::Quit => true,
        _ => false,
    }
}

// The number of the first command between packets.
fn moving(script: &[(When, Command)]) -> Option<u32>
    ensures { result ≡ moving script.now }
{
    for (when, command) in script {
        if is_between(*when) && !is_quit(command) {
            return Some(command.number);
        }
    }
    None
}

/// The script and the captures that the words name.
///
/// # Errors
/// The first fault of them, a command between packets among these, or that of a read before it, or `NoMemory` where memory ran
/// out.
pub(crate) fn read_in<F: Files>(
    alloc: Global,
    words: &ForecastWords,
    files: &mut F,
) -> Result<ReadIn, ForecastFault>
    requires few { length words.now.ports ≤ 64 }
    ensures ok { IfOk result (λ read. IsReadIn (F.contents files.old) words.now read.script read.captures.items) }
    ensures err { IfErr result (λ fault. ReadStops (of_files (F.contents files.old) (F.contents files.new) (F.faults files.old) (F.faults files.new)) words.now fault) }
    ensures same { F.contents files.new ≡ F.contents files.old }
    ensures counts { (other : List ℕ) → F.faults files.old other ≤ F.faults files.new other }
{
    let script = match read_script_file(alloc, words.script.as_str(), files) {
        Ok(read) => read.script,
        Err(fault) => return Err(fault_of(fault)),
    };
    if let Some(command) = moving(script.commands()) {
        return Err(ForecastFault::Moving { command });
    }
    let mut captures = Vec::new(alloc);
    match read_ports(alloc, 0, 0, 0, words.ports.as_slice(), &mut captures, files) {
        Ok(()) => Ok(ReadIn { script, captures }),
        Err(fault) => Err(fault_of(fault)),
    }
}
