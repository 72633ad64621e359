// The line that tells a fault.
ghost use Rattle.std.specs.Prelude.{◌≡◌, ◌++◌, codes, map, slice_get, string_bytes, IfOk, OnOk, OnErr};
ghost use Rattle.ng_args.specs.Run.{words_of};
ghost use Rattle.ng_call.specs.Line.{script_named, ports_named, journal_named, port_name, file_name, script_words, capture_words, two_digits, shown_byte, shown, fault_words, fault_line};

use crate::{Fault, Which};
use ng_args::{PortWord, Source, Words, read_words};
use ng_base::NoMemory;
use ng_pcap::CaptureFault;
use ngctl_script::ScriptFault;
use std::alloc::{AllocError, Global};

const USAGE: &str =
    "usage: ngrun [-w WORKERS] [-b BUDGET] [-n NAME] [-j JOURNAL] SCRIPT [PORT=IN,OUT ..]";

// The name of the script, or none.
fn script_named(words: &Option<Words>) -> &str
    ensures { result.now ≡ script_named words.now }
{
    let Some(words) = words else {
        return "";
    };
    match &words.source {
        Source::FromFiles { script, .. } => script.as_str(),
        Source::Made(_) => "",
    }
}

// The ports that have files.
fn ports_named(words: &Option<Words>) -> &[PortWord]
    ensures { result.now ≡ ports_named words.now }
{
    let Some(words) = words else {
        return &[];
    };
    match &words.source {
        Source::FromFiles { ports, .. } => ports.as_slice(),
        Source::Made(_) => &[],
    }
}

// The name of the journal's file, or none.
fn journal_named(words: &Option<Words>) -> &str
    ensures { result.now ≡ journal_named words.now }
{
    let Some(words) = words else {
        return "";
    };
    match &words.journal {
        Some(name) => name.as_str(),
        None => "",
    }
}

// How the sink or a file is called.
fn file_name(which: Which, words: &Option<Words>) -> &str
    ensures { result.now ≡ file_name which words.now }
{
    match which {
        Which::Sink => "output",
        Which::Script => script_named(words),
        Which::Capture(port) => match ports_named(words).get(port as usize) {
            Some(port) => port.in_file.as_str(),
            None => "",
        },
        Which::Leaving(port) => match ports_named(words).get(port as usize) {
            Some(port) => port.out_file.as_str(),
            None => "",
        },
        Which::Journal => journal_named(words),
    }
}

/// What is said of a fault of the script.
///
/// # Errors
/// Memory ran out, and nothing else.
pub fn script_words(alloc: Global, fault: ScriptFault) -> Result<String, AllocError>
    ensures { IfOk result (λ said. string_bytes said ≡ script_words fault) }
{
    match fault {
        ScriptFault::LineTooLong(line) => { format!(in alloc; "script line {line}: line too long") }
        ScriptFault::BadMark(line) => format!(in alloc; "script line {line}: bad mark"),
        ScriptFault::TooMany(line) => format!(in alloc; "script line {line}: too many commands"),
        ScriptFault::NoMemory => format!(in alloc; "out of memory"),
    }
}

/// What is said of a fault of a capture.
///
/// # Errors
/// Memory ran out, and nothing else.
pub fn capture_words(alloc: Global, why: CaptureFault) -> Result<String, AllocError>
    ensures { IfOk result (λ said. string_bytes said ≡ capture_words why) }
{
    match why {
        CaptureFault::ShortHeader(_) => format!(in alloc; "short header"),
        CaptureFault::NoMagic => format!(in alloc; "no capture"),
        CaptureFault::BadVersion => format!(in alloc; "bad version"),
        CaptureFault::BadLink(link) => format!(in alloc; "bad link type {link}"),
        CaptureFault::TooLong(place, _) => format!(in alloc; "packet too long at byte {place}"),
        CaptureFault::NoMemory => format!(in alloc; "out of memory"),
    }
}

// The name of a port, or none.
fn port_text(alloc: Global, words: &Option<Words>, port: u32) -> Result<Vec<u8>, AllocError>
    ensures { IfOk result (λ name. name.items ≡ port_name (slice_get (ports_named words.now) port)) }
{
    match ports_named(words).get(port as usize) {
        Some(port) => Vec::from_slice(alloc, port.name.bytes()),
        None => Ok(Vec::new(alloc)),
    }
}

// Puts a byte in two digits of base 16.
#[tactic(auto, using(std::proofs::lemmas::Fmt::hex_byte))]
fn put_digits(alloc: Global, said: &mut Vec<u8>, byte: u8) -> Result<(), AllocError>
    ensures { OnOk result (said.new.items ≡ said.old.items ++ two_digits byte) }
{
    let digits = format!(in alloc; "{byte:02x}")?;
    said.extend_from_slice(digits.as_bytes())
}

// Puts a byte of a name: by its digits where it is not printable.
fn put_byte(alloc: Global, said: &mut Vec<u8>, byte: u8) -> Result<(), AllocError>
    ensures { OnOk result (said.new.items ≡ said.old.items ++ shown_byte byte) }
{
    if byte < 0x20 || byte > 0x7e {
        said.extend_from_slice(b"\\x")?;
        return put_digits(alloc, said, byte);
    }
    said.push(byte)?;
    Ok(())
}

/// Words, and behind them the name of a file as it is shown: a byte that is not printable ASCII by two digits of base 16.
///
/// # Errors
/// Where memory ran out, and for nothing else.
pub fn named(alloc: Global, text: &[u8], name: &str) -> Result<Vec<u8>, AllocError>
    ensures { IfOk result (λ said. said.items ≡ text.now ++ shown name.now) }
{
    let mut said = Vec::from_slice(alloc, text)?;
    for byte in name.as_bytes() {
        put_byte(alloc, &mut said, *byte)?;
    }
    Ok(said)
}

/// What is said of a fault of a call with these words, without what stands before it on its line. A file or a port that the words
/// do not have is told without a name.
///
/// # Errors
/// Where memory ran out, and for nothing else.
pub fn fault_words(
    alloc: Global,
    fault: Fault,
    words: &Option<Words>,
) -> Result<Vec<u8>, AllocError>
    ensures { IfOk result (λ said. said.items ≡ fault_words fault words.now) }
{
    match fault {
        Fault::Usage => Vec::from_slice(alloc, USAGE.as_bytes()),
        Fault::Script(fault) => {
            let said = script_words(alloc, fault)?;
            Vec::from_slice(alloc, said.as_bytes())
        }
        Fault::Capture { port, why } => {
            let name = port_text(alloc, words, port)?;
            let why = capture_words(alloc, why)?;
            wrong_capture(alloc, &name, &why)
        }
        Fault::TooBig(which) => named(alloc, b"too big: ", file_name(which, words)),
        Fault::ReadFault(which) => named(alloc, b"can't read ", file_name(which, words)),
        Fault::WriteFault(which) => named(alloc, b"can't write ", file_name(which, words)),
        Fault::NoMemory => Vec::from_slice(alloc, b"out of memory"),
    }
}

// A capture by its port, and what is wrong with it.
fn wrong_capture(alloc: Global, name: &[u8], why: &str) -> Result<Vec<u8>, AllocError>
    ensures { IfOk result (λ said. said.items ≡ codes "capture " ++ (name.now ++ (codes ": " ++ why.now))) }
{
    let mut said = Vec::from_slice(alloc, b"capture ")?;
    said.extend_from_slice(name)?;
    said.extend_from_slice(b": ")?;
    said.extend_from_slice(why.as_bytes())?;
    Ok(said)
}

/// Appends the line that tells a fault, with its LF: `ngrun: ` and what is said of the fault. `words` are those of the
/// call; a file or a port that they do not have is told without a name.
///
/// # Errors
/// `NoMemory` where memory ran out, and for nothing else; `out` is as before then.
pub fn fault_line(
    alloc: Global,
    fault: &Fault,
    words: &[String],
    out: &mut Vec<u8>,
) -> Result<(), NoMemory>
    ensures line { OnOk result (out.new.items ≡ out.old.items ++ fault_line fault.now (words_of (map (λ word. string_bytes word) words.now))) }
    ensures same { OnErr result (out.new.items ≡ out.old.items) }
{
    let words = read_words(alloc, words)?;
    let said = fault_words(alloc, *fault, &words)?;
    let mut line = Vec::from_slice(alloc, b"ngrun: ")?;
    line.extend_from_slice(&said)?;
    line.push(b'\n')?;
    out.extend_from_slice(&line)?;
    Ok(())
}
