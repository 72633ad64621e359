// Bytes as scripts and captures.
ghost use Rattle.std.specs.Prelude.{◌≡◌, ◌<◌, ◌≤◌, ◌⊎◌, ℕ, None, Ok, true, length, map, slice_index, IfOk, IfErr, IfSome};
ghost use Rattle.ng_machine.specs.Words.{Every};
ghost use Rattle.ng_pcap.specs.Reading.{capture_of};
ghost use Rattle.ng_pcap.specs.Writing.{IsWritable};
ghost use Rattle.ng_pcap.specs.declared.fault.CaptureFault.TheVariants as capture_faults;
ghost use Rattle.ngctl_script.specs.Script.{script_fault, commands_of, IsFaultOf};
ghost use Rattle.ng_call.specs.Parts.{stop_of_script, stop_of_capture};
ghost use Rattle.ng_call.specs.Steps.{fault_in, packets_in};

use crate::Fault;
use crate::found::ReadScript;
use ng_base::NoMemory;
use ng_machine::Command;
use ng_pcap::{Capture, CaptureFault, PACKET_HEAD_LEN, count_packets, read_capture};
use ngctl_script::{Script, ScriptFault, read_script};
use std::alloc::Global;

/// The fault of the call that comes of one of the script.
pub(crate) fn stop_of_script(fault: ScriptFault) -> Fault
    ensures { result ≡ stop_of_script fault }
{
    match fault {
        ScriptFault::NoMemory => Fault::NoMemory,
        fault => Fault::Script(fault),
    }
}

/// The fault of the call that comes of one of a port's capture.
pub(crate) fn stop_of_capture(port: u32, why: CaptureFault) -> Fault
    ensures { result ≡ stop_of_capture port why }
{
    match why {
        CaptureFault::NoMemory => Fault::NoMemory,
        why => Fault::Capture { port, why },
    }
}

// The commands of a script without their times.
fn commands_alone(alloc: Global, script: Script) -> Result<Vec<Command>, NoMemory>
    ensures { IfOk result (λ commands. commands.items ≡ map (λ timed. timed.1) script) }
{
    let mut commands = Vec::new(alloc);
    for timed in script.into_commands() {
        commands.push(timed.1)?;
    }
    Ok(commands)
}

/// The script of these bytes, read twice: once to be fed, once to be printed.
///
/// # Errors
/// The first fault of the bytes, or `NoMemory` where memory ran out.
pub(crate) fn parse_script(alloc: Global, bytes: &[u8]) -> Result<ReadScript, ScriptFault>
    ensures fine { IfOk result (λ read. script_fault bytes.now ≡ None) }
    ensures script { IfOk result (λ read. read.script ≡ commands_of bytes.now) }
    ensures commands { IfOk result (λ read. read.commands.items ≡ map (λ timed. timed.1) (commands_of bytes.now)) }
    ensures fault { IfErr result (λ fault. IsFaultOf bytes.now fault) }
{
    let script = match read_script(alloc, bytes) {
        Ok(script) => script,
        Err(fault) => return Err(fault),
    };
    let again = match read_script(alloc, bytes) {
        Ok(again) => again,
        Err(fault) => return Err(fault),
    };
    let Ok(commands) = commands_alone(alloc, again) else {
        return Err(ScriptFault::NoMemory);
    };
    Ok(ReadScript { script, commands })
}

/// The capture of these bytes.
///
/// # Errors
/// The first fault of the bytes, or `NoMemory` where memory ran out.
pub(crate) fn parse_capture(alloc: Global, bytes: Vec<u8>) -> Result<Capture, CaptureFault>
    ensures read { IfOk result (λ capture. capture_of bytes.items ≡ Ok capture) }
    ensures bytes { (at : ℕ) → slice_index bytes.items at < 256 }
    ensures fault { IfErr result (λ why. (why ≡ capture_faults.NoMemory) ⊎ (fault_in (capture_of bytes.items) ≡ Some why)) }
{
    read_capture(alloc, bytes)
}

// Whether a capture of these bytes has more than so many packets. They are counted where the bytes are so many that it may.
fn has_more(bytes: &[u8], most: u64) -> Result<bool, CaptureFault>
    ensures more { IfOk result (λ more. more ≡ true → most < packets_in bytes.now) }
    ensures read { IfOk result (λ more. more ≡ true → fault_in (capture_of bytes.now) ≡ None) }
    ensures fault { IfErr result (λ why. fault_in (capture_of bytes.now) ≡ Some why) }
{
    if bytes.len() as u64 / PACKET_HEAD_LEN as u64 <= most {
        return Ok(false);
    }
    Ok(count_packets(bytes)? > most)
}

/// The capture of these bytes, or `None` where it has more than so many packets. Those are counted and not kept then.
///
/// # Errors
/// The first fault of the bytes, or `NoMemory` where memory ran out.
pub(crate) fn parse_capture_within(
    alloc: Global,
    bytes: Vec<u8>,
    most: u64,
) -> Result<Option<Capture>, CaptureFault>
    ensures read { IfOk result (λ found. IfSome found (λ capture. capture_of bytes.items ≡ Ok capture)) }
    ensures few { IfOk result (λ found. IfSome found (λ capture. length capture.kept ≤ most)) }
    ensures writable { IfOk result (λ found. IfSome found (λ capture. Every IsWritable capture.kept)) }
    ensures fine { IfOk result (λ found. found ≡ None → fault_in (capture_of bytes.items) ≡ None) }
    ensures many { IfOk result (λ found. found ≡ None → most < packets_in bytes.items) }
    ensures fault { IfErr result (λ why. (why ≡ capture_faults.NoMemory) ⊎ (fault_in (capture_of bytes.items) ≡ Some why)) }
{
    if has_more(&bytes, most)? {
        return Ok(None);
    }
    let capture = parse_capture(alloc, bytes)?;
    if capture.kept.as_slice().len() as u64 > most {
        return Ok(None);
    }
    Ok(Some(capture))
}
