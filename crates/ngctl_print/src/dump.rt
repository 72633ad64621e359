// The bytes of a packet, in rows of sixteen.
ghost use Rattle.std.specs.Prelude.{◌≡◌, ◌+◌, ◌*◌, ◌^◌, ◌<◌, ◌≤◌, ◌++◌, length, IfOk, OnOk};
ghost use Rattle.ng_machine.specs.Bounds.{Fits};
ghost use Rattle.ngctl_print.specs.Dump.{hex_digit, offset_digits, byte_digits, dump_row, row_text, dump};
ghost use Rattle.ngctl_print.specs.Prints.{Prints};

use crate::PrintStop;
use crate::line::put_line;
use ng_outside::Sink;
use std::alloc::{AllocError, Global};

const DIGITS: [u8; 16] = *b"0123456789abcdef";

// How many bytes a row shows.
const ROW: usize = 16;

// How long its line is at most: five digits, a colon, three for each byte, and its end.
const LINE: usize = 55;

fn hex_digit(n: usize) -> u8
    requires { n < 16 }
    ensures { result ≡ hex_digit n }
{
    DIGITS[n]
}

fn offset_digits(at: usize) -> [u8; 5]
    requires { at < 2 ^ 20 }
    ensures { result ≡ offset_digits at }
{
    [
        hex_digit(at / 65_536),
        hex_digit(at / 4_096 % 16),
        hex_digit(at / 256 % 16),
        hex_digit(at / 16 % 16),
        hex_digit(at % 16),
    ]
}

fn push_byte(line: &mut Vec<u8>, byte: u8) -> Result<(), AllocError>
    ensures { OnOk result (line.new.items ≡ line.old.items ++ byte_digits byte) }
{
    let high = hex_digit(usize::from(byte / 16));
    let low = hex_digit(usize::from(byte % 16));
    line.extend_from_slice(&[b' ', high, low])
}

// Writes a row over a line that was there, in its memory.
fn write_row(line: &mut Vec<u8>, at: usize, bytes: &[u8]) -> Result<(), AllocError>
    requires { at < 2 ^ 20 }
    ensures { OnOk result (line.new.items ≡ dump_row at bytes.now) }
{
    line.clear();
    line.extend_from_slice(&offset_digits(at))?;
    line.push(b':')?;
    for byte in bytes {
        push_byte(line, *byte)?;
    }
    line.push(b'\n')?;
    Ok(())
}

fn print_row<O: Sink>(
    line: &mut Vec<u8>,
    packet: &[u8],
    row: usize,
    out: &mut O,
) -> Result<(), PrintStop>
    requires short { Fits packet.now }
    requires inside { 16 * row < length packet.now }
    ensures { Prints (O.contents out.old) (O.contents out.new) (O.faults out.old) (O.faults out.new) result (row_text packet.now row) }
{
    let at = ROW * row;
    let end = packet.len().min(at + ROW);
    let Ok(()) = write_row(line, at, &packet[at..end]) else {
        return Err(PrintStop::NoMemory);
    };
    put_line(out, line.as_slice())
}

/// Puts the dump of a packet's bytes, of which there are at most 262,144: a line for each sixteen, all written in one memory.
///
/// # Errors
/// `Fault` where the sink failed, `NoMemory` for want of memory.
pub(crate) fn print_dump<O: Sink>(
    alloc: Global,
    packet: &[u8],
    out: &mut O,
) -> Result<(), PrintStop>
    requires { Fits packet.now }
    ensures { Prints (O.contents out.old) (O.contents out.new) (O.faults out.old) (O.faults out.new) result (dump packet.now) }
{
    let mut line = Vec::with_capacity(alloc, LINE)?;
    for row in 0..packet.len().div_ceil(ROW) {
        print_row(&mut line, packet, row, out)?;
    }
    Ok(())
}
