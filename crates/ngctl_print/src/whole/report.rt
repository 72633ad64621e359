// The counts at the end of the text.
ghost use Rattle.std.specs.List.{flat_map};
ghost use Rattle.ngctl_print.specs.Prints.{Prints};
ghost use Rattle.ngctl_print.specs.whole.Text.{summary_of, report_line};

use crate::{PrintStop, print_port, print_summary};
use ng_base::Name;
use ng_machine::{PortTotals, Totals};
use ng_outside::Sink;
use std::alloc::Global;

/// What the summary says.
#[derive(Clone, Copy, Debug, PartialEq, Eq)]
pub struct Summary {
    /// The counts of the run.
    pub totals: Totals,
    /// How many inputs were fed.
    pub fed: u64,
    /// How many inputs there are.
    pub of: u64,
    /// Whether the run stopped at its limit of applied items.
    pub stopped: bool,
}

/// What the line of a port says.
#[derive(Clone, Copy)]
pub struct PortReport {
    /// The name of the port.
    pub name: Name,
    /// The counts of the port.
    pub totals: PortTotals,
    /// The place, in bytes, where the capture that came in was cut, if it was.
    pub cut: Option<u64>,
}

/// Puts the four lines of the summary.
///
/// # Errors
/// `Fault` where the sink failed, `NoMemory` for want of memory. A front of the lines was put then.
pub(super) fn print_report<O: Sink>(
    alloc: Global,
    summary: &Summary,
    out: &mut O,
) -> Result<(), PrintStop>
    ensures { Prints (O.contents out.old) (O.contents out.new) (O.faults out.old) (O.faults out.new) result (summary_of summary.now) }
{
    print_summary(
        alloc,
        &summary.totals,
        summary.fed,
        summary.of,
        summary.stopped,
        out,
    )
}

/// Puts the line of each port, in order.
///
/// # Errors
/// As `print_port`.
pub(super) fn print_ports<O: Sink>(
    alloc: Global,
    ports: &[PortReport],
    out: &mut O,
) -> Result<(), PrintStop>
    ensures { Prints (O.contents out.old) (O.contents out.new) (O.faults out.old) (O.faults out.new) result (flat_map report_line ports.now) }
{
    for port in ports {
        print_port(alloc, &port.name, &port.totals, port.cut, out)?;
    }
    Ok(())
}
