// A script, captures and ports that are made.
ghost use Rattle.std.specs.Prelude.{◌≡◌, ◌≤◌, ℕ, List, [], All, None, Some, map, IfOk};
ghost use Rattle.ng_machine.specs.Words.{Every};
ghost use Rattle.ng_outside.specs.Contents.{Contents};
ghost use Rattle.ng_args.specs.Run.{made_ports};
ghost use Rattle.ng_args.specs.declared.words.Source.TheVariants.{Made as made_source};
ghost use Rattle.ng_pcap.specs.Writing.{IsWritable};
ghost use Rattle.ngctl_script.specs.Script.{commands_of, script_fault};
ghost use Rattle.ng_call.specs.Found.{capture_in};
ghost use Rattle.ng_call.specs.MadeInForm.{IsCapture};
ghost use Rattle.ng_call.specs.Parts.{AllPass, AreAllWritable};

use crate::found::{ReadIn, ReadScript};
use crate::laws::made_is_in_form;
use crate::parse::{parse_capture, parse_script};
use ng_args::{FileName, PortWord};
use ng_base::{Bytes, Name, NoMemory};
use ng_pcap::{Capture, CaptureFault};
use ngctl_script::ScriptFault;
use ngctl_script::make::make;
use std::alloc::Global;

// Ports of these names, without files.
fn ports_of(alloc: Global, names: &[Name]) -> Result<Vec<PortWord>, NoMemory>
    ensures { IfOk result (λ ports. ports.items
        ≡ map (λ name. record { name = name; in_file = []; out_file = [] }) names.now) }
{
    let mut ports = Vec::new(alloc);
    for name in names {
        ports.push(PortWord {
            name: *name,
            in_file: FileName(String::new(alloc)),
            out_file: FileName(String::new(alloc)),
        })?;
    }
    Ok(ports)
}

// The script of bytes that are in form.
fn script_of(alloc: Global, bytes: &[u8]) -> Result<ReadScript, NoMemory>
    requires { script_fault bytes.now ≡ None }
    ensures script { IfOk result (λ read. read.script ≡ commands_of bytes.now) }
    ensures commands { IfOk result (λ read. read.commands.items ≡ map (λ timed. timed.1) (commands_of bytes.now)) }
{
    match parse_script(alloc, bytes) {
        Ok(script) => Ok(script),
        Err(ScriptFault::NoMemory) => Err(NoMemory),
        Err(ScriptFault::LineTooLong(_) | ScriptFault::BadMark(_) | ScriptFault::TooMany(_)) => {
            unreachable!()
        }
    }
}

// The capture of bytes that are in form.
fn capture_of(alloc: Global, bytes: Vec<u8>) -> Result<Capture, NoMemory>
    requires { IsCapture bytes.items }
    ensures read { IfOk result (λ capture. capture ≡ capture_in (Some bytes.items)) }
    ensures writable { IfOk result (λ capture. Every IsWritable capture.kept) }
{
    match parse_capture(alloc, bytes) {
        Ok(capture) => Ok(capture),
        Err(CaptureFault::NoMemory) => Err(NoMemory),
        Err(
            CaptureFault::ShortHeader(_)
            | CaptureFault::NoMagic
            | CaptureFault::BadVersion
            | CaptureFault::BadLink(_)
            | CaptureFault::TooLong(_, _),
        ) => unreachable!(),
    }
}

// The captures of these bytes.
fn captures_of(alloc: Global, files: Vec<Bytes>) -> Result<Vec<Capture>, NoMemory>
    requires { All IsCapture files.items }
    ensures read { IfOk result (λ captures. captures.items ≡ map (λ bytes. capture_in (Some bytes)) files.items) }
    ensures writable { IfOk result (λ captures. AreAllWritable captures.items) }
{
    let mut captures = Vec::new(alloc);
    for bytes in files {
        captures.push(capture_of(alloc, bytes.0)?)?;
    }
    Ok(captures)
}

/// The script, the captures and the ports of so many packets. They are in form, so only memory can run out.
///
/// # Errors
/// `NoMemory` where memory ran out, and for nothing else.
pub fn read_made(alloc: Global, n: u32) -> Result<(ReadIn, Vec<PortWord>), NoMemory>
    requires some { 1 ≤ n }
    requires few { n ≤ 100000 }
    ensures read { IfOk result (λ r. (files : List ℕ → Contents)
        → AllPass files (made_source n) r.0.script.script r.0.script.commands.items r.0.captures.items) }
    ensures ports { IfOk result (λ r. r.1.items ≡ made_ports) }
{
    let made = make(alloc, n)?;
    made_is_in_form();
    let script = script_of(alloc, &made.script.0)?;
    let captures = captures_of(alloc, made.captures.into_vec())?;
    let ports = ports_of(alloc, made.ports.as_slice())?;
    Ok((ReadIn { script, captures }, ports))
}
