// The line of a port, behind the summary.
ghost use Rattle.std.specs.Prelude.{◌≡◌, ◌++◌, IfOk, OnOk, string_bytes};
ghost use Rattle.ngctl_print.specs.Ports.{cut_words, port_line, port_words};
ghost use Rattle.ngctl_print.specs.Prints.{Prints};

use crate::PrintStop;
use crate::line::put_line;
use ng_base::Name;
use ng_machine::PortTotals;
use ng_outside::Sink;
use std::alloc::{AllocError, Global};

#[tactic(auto, unfolding(crate::specs::Ports::port_words))]
fn port_words(alloc: Global, name: &Name, totals: &PortTotals) -> Result<String, AllocError>
    ensures { IfOk result (λ words. string_bytes words ≡ port_words name.now totals.now) }
{
    let PortTotals { fed, left, up } = *totals;
    format!(in alloc; "port {name}: in {fed}, left {left}, up {up}")
}

fn push_cut(alloc: Global, line: &mut Vec<u8>, cut: Option<u64>) -> Result<(), AllocError>
    ensures { OnOk result (line.new.items ≡ line.old.items ++ cut_words cut) }
{
    if let Some(place) = cut {
        let words = format!(in alloc; ", capture cut at byte {place}")?;
        line.extend_from_slice(words.as_bytes())?;
    }
    Ok(())
}

fn port_line(
    alloc: Global,
    name: &Name,
    totals: &PortTotals,
    cut: Option<u64>,
) -> Result<Vec<u8>, AllocError>
    ensures { IfOk result (λ line. line.items ≡ port_line name.now totals.now cut) }
{
    let words = port_words(alloc, name, totals)?;
    let mut line = Vec::from_slice(alloc, words.as_bytes())?;
    push_cut(alloc, &mut line, cut)?;
    line.push(b'\n')?;
    Ok(line)
}

/// Puts the line of a port: its name, how many packets were fed to it, left by its wire and were handed
/// to the host, and the place, in bytes, where the capture that came in was cut, if it was.
///
/// # Errors
/// `Fault` where the sink failed, `NoMemory` for want of memory. A front of the line was put then.
pub fn print_port<O: Sink>(
    alloc: Global,
    name: &Name,
    totals: &PortTotals,
    cut: Option<u64>,
    out: &mut O,
) -> Result<(), PrintStop>
    ensures { Prints (O.contents out.old) (O.contents out.new) (O.faults out.old) (O.faults out.new) result (port_line name.now totals.now cut) }
{
    let line = port_line(alloc, name, totals, cut)?;
    put_line(out, &line)
}
