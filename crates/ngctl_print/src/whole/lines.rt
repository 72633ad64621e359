// Lines into a sink, each by itself.
ghost use Rattle.std.specs.Prelude.{◌≡◌, ◌<◌, ◌≤◌, ◌++◌, length};
ghost use Rattle.ngctl_print.specs.Prints.{Prints};

use crate::{PrintStop, put_line};
use ng_outside::Sink;

// How many bytes the first line has, its LF included; all bytes where there is no LF.
fn line_len(text: &[u8]) -> usize
    requires { 0 < length text.now }
    ensures some { 0 < result }
    ensures within { result ≤ length text.now }
{
    match text.iter().position(|byte| *byte == b'\n') {
        Some(place) => place + 1,
        None => text.len(),
    }
}

// The first line, and what stands behind it.
fn split_line(text: &[u8]) -> (&[u8], &[u8])
    requires { 0 < length text.now }
    ensures whole { text.now ≡ result.0.now ++ result.1.now }
    ensures shorter { length result.1.now < length text.now }
{
    text.split_at(line_len(text))
}

/// Puts lines, each by itself with its LF: all of a line is offered first, and then what is left of it.
///
/// # Errors
/// `Fault` where the sink failed.
pub(super) fn put_lines<O: Sink>(out: &mut O, text: &[u8]) -> Result<(), PrintStop>
    ensures { Prints (O.contents out.old) (O.contents out.new) (O.faults out.old) (O.faults out.new) result text.now }
{
    let mut rest = text;
    while !rest.is_empty() {
        let (line, behind) = split_line(rest);
        put_line(out, line)?;
        rest = behind;
    }
    Ok(())
}
