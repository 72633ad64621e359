// What the one who gave the commands is told.
ghost use Rattle.std.specs.Prelude.{◌≡◌, ◌≤◌, ◌++◌, length, IfOk, OnOk, string_bytes};
ghost use Rattle.ng_machine.specs.Bounds.{Fits};
ghost use Rattle.ngctl_print.specs.Prints.{Prints};
ghost use Rattle.ngctl_print.specs.Text.{command_line, why_text, refused_line, frame_line, frame_text};

use crate::PrintStop;
use crate::dump::print_dump;
use crate::line::put_line;
use ng_base::{Errno, Name};
use ng_outside::Sink;
use std::alloc::{AllocError, Global};

#[tactic(auto, unfolding(crate::specs::Text::command_line))]
fn command_line(alloc: Global, line: &[u8]) -> Result<Vec<u8>, AllocError>
    ensures { IfOk result (λ text. text.items ≡ command_line line.now) }
{
    let mut text = Vec::from_slice(alloc, b"+ ")?;
    text.extend_from_slice(line)?;
    text.push(b'\n')?;
    Ok(text)
}

fn push_why(text: &mut Vec<u8>, why: &[u8]) -> Result<(), AllocError>
    ensures { OnOk result (text.new.items ≡ text.old.items ++ why_text why.now) }
{
    if why.is_empty() {
        return Ok(());
    }
    text.extend_from_slice(b" (")?;
    text.extend_from_slice(why)?;
    text.push(b')')?;
    Ok(())
}

#[tactic(auto, unfolding(crate::specs::Text::refused_line))]
fn refused_line(alloc: Global, errno: Errno, why: &[u8]) -> Result<Vec<u8>, AllocError>
    ensures { IfOk result (λ line. line.items ≡ refused_line errno why.now) }
{
    let Errno(number) = errno;
    let said = errno.text();
    let head = format!(in alloc; "error {number}: {said}")?;
    let mut line = Vec::from_slice(alloc, head.as_bytes())?;
    push_why(&mut line, why)?;
    line.push(b'\n')?;
    Ok(line)
}

#[tactic(auto, unfolding(crate::specs::Text::frame_line))]
fn frame_line(alloc: Global, hook: &Name) -> Result<String, AllocError>
    ensures { IfOk result (λ text. string_bytes text ≡ frame_line hook.now) }
{
    format!(in alloc; "data on {hook}:\n")
}

/// Puts the line of a command that was fed, behind `+ `.
///
/// # Errors
/// `Fault` where the sink failed, `NoMemory` for want of memory. A front of the line was put then.
pub fn print_line<O: Sink>(alloc: Global, line: &[u8], out: &mut O) -> Result<(), PrintStop>
    ensures { Prints (O.contents out.old) (O.contents out.new) (O.faults out.old) (O.faults out.new) result (command_line line.now) }
{
    let text = command_line(alloc, line)?;
    put_line(out, text.as_slice())
}

/// Puts the error of a command that was refused: its number, its text, and the words where there are any.
///
/// # Errors
/// `Fault` where the sink failed, `NoMemory` for want of memory. A front of the line was put then.
pub fn print_refused<O: Sink>(
    alloc: Global,
    errno: Errno,
    why: &[u8],
    out: &mut O,
) -> Result<(), PrintStop>
    ensures { Prints (O.contents out.old) (O.contents out.new) (O.faults out.old) (O.faults out.new) result (refused_line errno why.now) }
{
    let text = refused_line(alloc, errno, why)?;
    put_line(out, text.as_slice())
}

/// Puts a packet that reached the socket: the hook that it came by, and the dump of its bytes. It has at
/// most 262,144 bytes, as its offsets have five digits.
///
/// # Errors
/// `Fault` where the sink failed, `NoMemory` for want of memory. A front of the text was put then.
pub fn print_frame<O: Sink>(
    alloc: Global,
    hook: &Name,
    packet: &[u8],
    out: &mut O,
) -> Result<(), PrintStop>
    requires { Fits packet.now }
    ensures { Prints (O.contents out.old) (O.contents out.new) (O.faults out.old) (O.faults out.new) result (frame_text hook.now packet.now) }
{
    let head = frame_line(alloc, hook)?;
    put_line(out, head.as_bytes())?;
    print_dump(alloc, packet, out)
}
