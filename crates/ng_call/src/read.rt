// The files that a call reads.
ghost use Rattle.std.specs.Prelude.{◌≡◌, ◌≤◌, ◌+◌, ℕ, List, [], None, Ok, length, IfOk, OnOk, IfErr};
ghost use Rattle.ng_call.specs.ending.Steps.{first_fault};
ghost use Rattle.ng_machine.specs.Words.{Every};
ghost use Rattle.ng_pcap.specs.Reading.{capture_of};
ghost use Rattle.ng_pcap.specs.Writing.{IsWritable};
ghost use Rattle.ng_args.specs.declared.words.Source.TheVariants.{FromFiles as from_files};
ghost use Rattle.ng_call.specs.Found.{IsRead};
ghost use Rattle.ng_call.specs.Steps.{script_steps, port_steps, most_bytes, most_packets};
ghost use Rattle.ng_call.specs.Call.{names};
ghost use Rattle.ng_call.specs.Parts.{of_files, Stops, ScriptPasses, PortsPass, PortsStop, AllPass, AllStop};

use crate::found::{ReadIn, ReadScript};
use crate::parse::{parse_capture_within, parse_script, stop_of_capture, stop_of_script};
use crate::{Fault, Which};
use ng_args::{FileName, PortWord};
use ng_base::Sequence;
use ng_outside::{Files, ReadStop, read_whole};
use ng_pcap::Capture;
use std::alloc::Global;

// A script has at most so many bytes.
const MOST_SCRIPT: u64 = 1_048_576;

// Captures have at most so many bytes together, and so many packets.
const MOST_BYTES: u64 = 268_435_456;

const MOST_PACKETS: u64 = 1_000_000;

/// The script of a file.
///
/// # Errors
/// The fault of the file, or `NoMemory` where memory ran out.
pub fn read_script_file<F: Files>(
    alloc: Global,
    name: &str,
    files: &mut F,
) -> Result<ReadScript, Fault>
    ensures ok { IfOk result (λ read. ScriptPasses (F.contents files.old) name.now read.script read.commands.items) }
    ensures err { IfErr result (λ fault. (bytes : List ℕ) × IsRead (F.contents files.old name.now) bytes
        × Stops (of_files (F.contents files.old) (F.contents files.new) (F.faults files.old) (F.faults files.new)) (script_steps names name.now bytes) fault) }
    ensures same { F.contents files.new ≡ F.contents files.old }
    ensures counts { (other : List ℕ) → F.faults files.old other ≤ F.faults files.new other }
{
    let bytes = match read_whole(alloc, files, name, MOST_SCRIPT) {
        Ok(bytes) => bytes,
        Err(ReadStop::Fault) => return Err(Fault::ReadFault(Which::Script)),
        Err(ReadStop::TooBig) => return Err(Fault::TooBig(Which::Script)),
        Err(ReadStop::NoMemory) => return Err(Fault::NoMemory),
    };
    match parse_script(alloc, &bytes) {
        Ok(read) => Ok(read),
        Err(fault) => Err(stop_of_script(fault)),
    }
}

// The capture of a port, behind others of so many bytes and packets, and how many bytes it has.
fn read_port_file<F: Files>(
    alloc: Global,
    port: u32,
    bytes: u64,
    packets: u64,
    name: &str,
    files: &mut F,
) -> Result<(Capture, u64), Fault>
    requires bytes { bytes ≤ most_bytes }
    requires packets { packets ≤ most_packets }
    ensures ok { IfOk result (λ read. (held : List ℕ) × IsRead (F.contents files.old name.now) held
        × (first_fault (F.contents files.old) (port_steps names port bytes packets name.now held) ≡ None)
        × (capture_of held ≡ Ok read.0) × (read.1 ≡ length held)) }
    ensures writable { IfOk result (λ read. Every IsWritable read.0.kept) }
    ensures within_bytes { IfOk result (λ read. bytes + read.1 ≤ most_bytes) }
    ensures within_packets { IfOk result (λ read. packets + length read.0.kept ≤ most_packets) }
    ensures err { IfErr result (λ fault. (held : List ℕ) × IsRead (F.contents files.old name.now) held
        × Stops (of_files (F.contents files.old) (F.contents files.new) (F.faults files.old) (F.faults files.new)) (port_steps names port bytes packets name.now held) fault) }
    ensures same { F.contents files.new ≡ F.contents files.old }
    ensures counts { (other : List ℕ) → F.faults files.old other ≤ F.faults files.new other }
{
    let held = match read_whole(alloc, files, name, MOST_BYTES - bytes) {
        Ok(held) => held,
        Err(ReadStop::Fault) => return Err(Fault::ReadFault(Which::Capture(port))),
        Err(ReadStop::TooBig) => return Err(Fault::TooBig(Which::Capture(port))),
        Err(ReadStop::NoMemory) => return Err(Fault::NoMemory),
    };
    let len = held.len() as u64;
    match parse_capture_within(alloc, held, MOST_PACKETS - packets) {
        Ok(Some(capture)) => Ok((capture, len)),
        Ok(None) => Err(Fault::TooBig(Which::Capture(port))),
        Err(why) => Err(stop_of_capture(port, why)),
    }
}

// The capture of a port that receives nothing.
fn no_capture(alloc: Global) -> Capture
    ensures kept { result.kept ≡ [] }
    ensures cut { result.cut ≡ None }
{
    Capture {
        kept: Sequence::new(alloc),
        cut: None,
    }
}

/// Reads the captures of the ports from one on, behind others of so many bytes and packets, and adds them. A port that receives
/// nothing has one without packets.
///
/// # Errors
/// The first fault of their files, or `NoMemory` where memory ran out.
pub fn read_ports<F: Files>(
    alloc: Global,
    port: u32,
    bytes: u64,
    packets: u64,
    ports: &[PortWord],
    captures: &mut Vec<Capture>,
    files: &mut F,
) -> Result<(), Fault>
    requires few { port + length ports.now ≤ 64 }
    requires bytes { bytes ≤ most_bytes }
    requires packets { packets ≤ most_packets }
    ensures ok { OnOk result (PortsPass (F.contents files.old) port bytes packets ports.now captures.old.items captures.new.items) }
    ensures err { IfErr result (λ fault. PortsStop (of_files (F.contents files.old) (F.contents files.new) (F.faults files.old) (F.faults files.new)) port bytes packets ports.now fault) }
    ensures same { F.contents files.new ≡ F.contents files.old }
    ensures counts { (other : List ℕ) → F.faults files.old other ≤ F.faults files.new other }
{
    let Some((word, others)) = ports.split_first() else {
        return Ok(());
    };
    let name = word.in_file.as_str();
    if name.is_empty() {
        let Ok(()) = captures.push(no_capture(alloc)) else {
            return Err(Fault::NoMemory);
        };
        return match read_ports(alloc, port + 1, bytes, packets, others, captures, files) {
            Ok(()) => Ok(()),
            Err(fault) => Err(fault),
        };
    }
    let (capture, len) = match read_port_file(alloc, port, bytes, packets, name, files) {
        Ok(read) => read,
        Err(fault) => return Err(fault),
    };
    let more = capture.kept.as_slice().len() as u64;
    let Ok(()) = captures.push(capture) else {
        return Err(Fault::NoMemory);
    };
    match read_ports(
        alloc,
        port + 1,
        bytes + len,
        packets + more,
        others,
        captures,
        files,
    ) {
        Ok(()) => Ok(()),
        Err(fault) => Err(fault),
    }
}

/// The script and the captures that files hold: SCRIPT, and the IN of each port, in order. No file is written.
///
/// # Errors
/// The first fault of them, in the order of the call: not read, too big, not in form. A fault of reading comes only where the
/// files' count of that name rose; or `NoMemory` where memory ran out.
pub fn read_files<F: Files>(
    alloc: Global,
    script: &FileName,
    ports: &[PortWord],
    files: &mut F,
) -> Result<ReadIn, Fault>
    requires few { length ports.now ≤ 64 }
    ensures ok { IfOk result (λ read. AllPass (F.contents files.old) (from_files script.now ports.now) read.script.script read.script.commands.items read.captures.items) }
    ensures err { IfErr result (λ fault. AllStop (of_files (F.contents files.old) (F.contents files.new) (F.faults files.old) (F.faults files.new)) (from_files script.now ports.now) fault) }
    ensures same { F.contents files.new ≡ F.contents files.old }
    ensures counts { (other : List ℕ) → F.faults files.old other ≤ F.faults files.new other }
{
    let script = match read_script_file(alloc, script.as_str(), files) {
        Ok(script) => script,
        Err(fault) => return Err(fault),
    };
    let mut captures = Vec::new(alloc);
    match read_ports(alloc, 0, 0, 0, ports, &mut captures, files) {
        Ok(()) => Ok(ReadIn { script, captures }),
        Err(fault) => Err(fault),
    }
}
