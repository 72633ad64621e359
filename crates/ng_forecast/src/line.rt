// The line that tells a fault of a forecast.
ghost use Rattle.std.specs.Prelude.{◌≡◌, ◌++◌, codes, map, slice_get, string_bytes, IfOk, OnOk, OnErr};
ghost use Rattle.std.specs.Fmt.{decimal};
ghost use Rattle.ng_call.specs.Line.{capture_words, port_name, script_words};
ghost use Rattle.ng_args.specs.Forecast.{forecast_words_of};
ghost use Rattle.ng_forecast.specs.Line.{fault_line, fault_words, file_name, ports_named, script_named};

use crate::{ForecastFault, Source};
use ng_args::{ForecastWords, PortWord, read_forecast_words};
use ng_base::NoMemory;
use ng_call::{capture_words, named, script_words};
use std::alloc::{AllocError, Global};

const USAGE: &str = "usage: ngrun --forecast HOPS NAME SCRIPT [PORT=IN ..]";

// The name of the script, or none.
fn script_named(words: &Option<ForecastWords>) -> &str
    ensures { result.now ≡ script_named words.now }
{
    match words {
        Some(words) => words.script.as_str(),
        None => "",
    }
}

// The ports of the words.
fn ports_named(words: &Option<ForecastWords>) -> &[PortWord]
    ensures { result.now ≡ ports_named words.now }
{
    match words {
        Some(words) => words.ports.as_slice(),
        None => &[],
    }
}

// How a file is called.
fn file_name(source: Source, words: &Option<ForecastWords>) -> &str
    ensures { result.now ≡ file_name source words.now }
{
    match source {
        Source::Script => script_named(words),
        Source::Capture(port) => match ports_named(words).get(port as usize) {
            Some(port) => port.in_file.as_str(),
            None => "",
        },
    }
}

// The name of a port, or none.
fn port_text(alloc: Global, words: &Option<ForecastWords>, port: u32) -> Result<Vec<u8>, AllocError>
    ensures { IfOk result (λ name. name.items ≡ port_name (slice_get (ports_named words.now) port)) }
{
    match ports_named(words).get(port as usize) {
        Some(port) => Vec::from_slice(alloc, port.name.bytes()),
        None => Ok(Vec::new(alloc)),
    }
}

// A capture by its port, and what is wrong with it.
fn wrong_capture(alloc: Global, name: &[u8], why: &str) -> Result<Vec<u8>, AllocError>
    ensures { IfOk result (λ said. said.items ≡ codes "capture " ++ (name.now ++ (codes ": " ++ why.now))) }
{
    let mut said = Vec::from_slice(alloc, b"capture ")?;
    said.extend_from_slice(name)?;
    said.extend_from_slice(b": ")?;
    said.extend_from_slice(why.as_bytes())?;
    Ok(said)
}

// Words and a number behind them.
fn numbered(alloc: Global, text: &[u8], number: u64) -> Result<Vec<u8>, AllocError>
    ensures { IfOk result (λ said. said.items ≡ text.now ++ decimal number) }
{
    let digits = format!(in alloc; "{number}")?;
    let mut said = Vec::from_slice(alloc, text)?;
    said.extend_from_slice(digits.as_bytes())?;
    Ok(said)
}

// What is said of a fault.
fn fault_words(
    alloc: Global,
    fault: ForecastFault,
    words: &Option<ForecastWords>,
) -> Result<Vec<u8>, AllocError>
    ensures { IfOk result (λ said. said.items ≡ fault_words fault words.now) }
{
    match fault {
        ForecastFault::Usage => Vec::from_slice(alloc, USAGE.as_bytes()),
        ForecastFault::Script(fault) => {
            let said = script_words(alloc, fault)?;
            Vec::from_slice(alloc, said.as_bytes())
        }
        ForecastFault::Capture { port, why } => {
            let name = port_text(alloc, words, port)?;
            let why = capture_words(alloc, why)?;
            wrong_capture(alloc, &name, &why)
        }
        ForecastFault::TooBig(source) => named(alloc, b"too big: ", file_name(source, words)),
        ForecastFault::ReadFault(source) => named(alloc, b"can't read ", file_name(source, words)),
        ForecastFault::WriteFault => Vec::from_slice(alloc, b"can't write output"),
        ForecastFault::Moving { command } => numbered(
            alloc,
            b"forecast refused: moving at command ",
            u64::from(command),
        ),
        ForecastFault::Restless => Vec::from_slice(alloc, b"forecast refused: restless"),
        ForecastFault::Wide { packet } => {
            numbered(alloc, b"forecast refused: wide at packet ", packet)
        }
        ForecastFault::Undefined { packet } => {
            numbered(alloc, b"forecast refused: undefined at packet ", packet)
        }
        ForecastFault::Big { packet } => {
            numbered(alloc, b"forecast refused: big at packet ", packet)
        }
        ForecastFault::NoMemory => Vec::from_slice(alloc, b"out of memory"),
    }
}

/// Appends the line that tells a fault, with its LF: `ngrun: ` and what is said of the fault. `words` are those of the
/// call, behind `--forecast`; a file or a port that they do not have is told without a name.
///
/// # Errors
/// `NoMemory` where memory ran out, and for nothing else; `out` is as before then.
pub fn forecast_fault_line(
    alloc: Global,
    fault: &ForecastFault,
    words: &[String],
    out: &mut Vec<u8>,
) -> Result<(), NoMemory>
    ensures line { OnOk result (out.new.items ≡ out.old.items ++ fault_line fault.now (forecast_words_of (map (λ word. string_bytes word) words.now))) }
    ensures same { OnErr result (out.new.items ≡ out.old.items) }
{
    let words = read_forecast_words(alloc, words)?;
    let said = fault_words(alloc, *fault, &words)?;
    let mut line = Vec::from_slice(alloc, b"ngrun: ")?;
    line.extend_from_slice(&said)?;
    line.push(b'\n')?;
    out.extend_from_slice(&line)?;
    Ok(())
}
