// The whole text of a run.
ghost use Rattle.std.specs.Prelude.{◌≡◌, ◌++◌, []};
ghost use Rattle.std.specs.List.{flat_map};
ghost use Rattle.ngctl_print.specs.Prints.{Prints};
ghost use Rattle.ngctl_print.specs.whole.Pieces.{Gathers};
ghost use Rattle.ngctl_print.specs.whole.Told.{ArePrintable};
ghost use Rattle.ngctl_print.specs.whole.Text.{summary_of, report_line, text_of};

use crate::PrintStop;
use crate::whole::piece::Piece;
use crate::whole::report::{print_ports, print_report};
use crate::whole::told::gather_told;
use crate::whole::{PortReport, Summary};
use ng_machine::{Command, Told};
use ng_outside::Sink;
use std::alloc::Global;

// The summary, and behind it the lines of the ports.
fn print_counts<O: Sink>(
    alloc: Global,
    summary: &Summary,
    ports: &[PortReport],
    out: &mut O,
) -> Result<(), PrintStop>
    ensures { Prints (O.contents out.old) (O.contents out.new) (O.faults out.old) (O.faults out.new) result
        (summary_of summary.now ++ flat_map report_line ports.now) }
{
    print_report(alloc, summary, out)?;
    print_ports(alloc, ports, out)
}

// What is told and the counts, but for the last of them, which are gathered.
fn gather_text<O: Sink>(
    alloc: Global,
    commands: &[Command],
    told: &[Told],
    summary: &Summary,
    ports: &[PortReport],
    piece: &mut Piece,
    out: &mut O,
) -> Result<(), PrintStop>
    requires printable { ArePrintable commands.now told.now }
    requires empty { piece.old.bytes ≡ [] }
    ensures { Gathers (O.contents out.old) (O.contents out.new) (O.faults out.old) (O.faults out.new) result
        (text_of commands.now told.now summary.now ports.now) piece.new.bytes }
{
    gather_told(alloc, told, commands, piece, out)?;
    match print_counts(alloc, summary, ports, piece) {
        Ok(()) => Ok(()),
        Err(_) => Err(PrintStop::NoMemory),
    }
}

/// Puts the text of a run: what is told, entry by entry, the summary, and a line for each port, in order.
/// The sink gets pieces of whole entries, of 64 KiB or more but for the last. All of a piece is offered first, and then what
/// is left of it. `commands` are the commands of the run.
///
/// # Errors
/// `Fault` where the sink failed, `NoMemory` for want of memory. A prefix of the text was put then.
pub fn print_text<O: Sink>(
    alloc: Global,
    commands: &[Command],
    told: &[Told],
    summary: &Summary,
    ports: &[PortReport],
    out: &mut O,
) -> Result<(), PrintStop>
    requires { ArePrintable commands.now told.now }
    ensures { Prints (O.contents out.old) (O.contents out.new) (O.faults out.old) (O.faults out.new) result
        (text_of commands.now told.now summary.now ports.now) }
{
    let mut piece = Piece::new(alloc);
    gather_text(alloc, commands, told, summary, ports, &mut piece, out)?;
    piece.hand_on(out)
}
