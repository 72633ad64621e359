// What the one who gave the commands is told.
ghost use Rattle.std.specs.Prelude.{◌≡◌, ◌++◌, ℕ, List, [], Option, IsTrue};
ghost use Rattle.std.specs.List.{flat_map};
ghost use Rattle.ng_outside.specs.Write.{Written};
ghost use Rattle.ngctl_print.specs.Prints.{Prints};
ghost use Rattle.ngctl_print.specs.whole.Commands.{AreFrom};
ghost use Rattle.ngctl_print.specs.whole.Pieces.{Gathers};
ghost use Rattle.ngctl_print.specs.whole.Told.{told_text, IsPrintable, ArePrintable};

use crate::whole::answers::print_answer;
use crate::whole::commands::{are_in_order, asked_by, line_numbered};
use crate::whole::help::print_help;
use crate::whole::piece::Piece;
use crate::{PrintStop, print_frame, print_line, print_refused};
use ng_machine::{Command, Told};
use ng_outside::Sink;
use ng_table::find_number;
use std::alloc::Global;

// Puts one entry. `in_order` says that the commands have the numbers from 1 on.
fn print_entry<O: Sink>(
    alloc: Global,
    told: &Told,
    commands: &[Command],
    in_order: bool,
    out: &mut O,
) -> Result<(), PrintStop>
    requires printable { IsPrintable commands.now told.now }
    requires order { IsTrue in_order → AreFrom 1 commands.now }
    ensures { Prints (O.contents out.old) (O.contents out.new) (O.faults out.old) (O.faults out.new) result (told_text commands.now told.now) }
{
    match told {
        Told::Line { command } => print_line(
            alloc,
            line_numbered(commands, in_order, *command),
            out,
        ),
        Told::Refused { errno, why, .. } => print_refused(alloc, *errno, &why.0, out),
        Told::Help { command } => print_help(alloc, asked_by(commands, in_order, *command), out),
        Told::Answer {
            command,
            from,
            cookie,
            number,
            bytes,
        } => {
            let what = asked_by(commands, in_order, *command);
            let row = find_number(*cookie, *number);
            print_answer(alloc, what, *from, row, &bytes.0, out)
        }
        Told::Frame { hook, packet } => print_frame(alloc, hook, packet.bytes(), out),
    }
}

/// Puts one entry of what is told, each line by itself with its LF: all of a line is offered first, and then
/// what is left of it. `commands` are the commands of the run, found by their numbers. ngctl(8).
///
/// - A command's line stands behind `+ `. It is empty where no command has the number.
/// - The error of a command that was refused stands with its words.
/// - Help is the usage of the command that is named, or of all commands in order.
/// - An answer to `list`, `show` or `types` stands in columns. Any other is the message's name, the node that
///   answers, and the text of its bytes in the shape of the answer in the table of messages.
/// - A packet is the hook that it came by and the dump of its bytes, of which there are at most 262,144.
///
/// # Errors
/// `Fault` where the sink failed, `NoMemory` for want of memory. A front of the text was put then.
pub fn print_told<O: Sink>(
    alloc: Global,
    told: &Told,
    commands: &[Command],
    out: &mut O,
) -> Result<(), PrintStop>
    requires { IsPrintable commands.now told.now }
    ensures { Prints (O.contents out.old) (O.contents out.new) (O.faults out.old) (O.faults out.new) result (told_text commands.now told.now) }
{
    print_entry(alloc, told, commands, false, out)
}

// One entry more is gathered, and what was gathered is put where it is enough.
fn gather_entry<O: Sink>(
    alloc: Global,
    told: &Told,
    commands: &[Command],
    in_order: bool,
    piece: &mut Piece,
    out: &mut O,
) -> Result<(), PrintStop>
    requires printable { IsPrintable commands.now told.now }
    requires order { IsTrue in_order → AreFrom 1 commands.now }
    ensures { (begun : Option (List ℕ)) (text : List ℕ) → Written begun (O.contents out.old) text piece.old.bytes
        → Gathers begun (O.contents out.new) (O.faults out.old) (O.faults out.new) result (text ++ told_text commands.now told.now) piece.new.bytes }
{
    if let Err(_) = print_entry(alloc, told, commands, in_order, piece) {
        return Err(PrintStop::NoMemory);
    }
    if piece.is_full() {
        return piece.hand_on(out);
    }
    Ok(())
}

/// Puts the entries, in order, but for the last of them, which are gathered.
///
/// # Errors
/// As `print_told`.
pub(super) fn gather_told<O: Sink>(
    alloc: Global,
    told: &[Told],
    commands: &[Command],
    piece: &mut Piece,
    out: &mut O,
) -> Result<(), PrintStop>
    requires printable { ArePrintable commands.now told.now }
    requires empty { piece.old.bytes ≡ [] }
    ensures { Gathers (O.contents out.old) (O.contents out.new) (O.faults out.old) (O.faults out.new) result (flat_map (told_text commands.now) told.now) piece.new.bytes }
{
    let in_order = are_in_order(commands);
    for entry in told {
        gather_entry(alloc, entry, commands, in_order, piece, out)?;
    }
    Ok(())
}
