// The text of a trace.
ghost use Rattle.std.specs.Prelude.{◌≡◌, ◌++◌, ◌≤◌, length, replicate, IfOk};
ghost use Rattle.ng_trace.specs.Text.{lines_or, packet_lines, trace_text};

use crate::lines::put_lines;
use crate::rows::put_sums;
use crate::{Arrived, Watched};
use ng_base::{Name, NoMemory};
use std::alloc::Global;

// No packet came by any port.
fn no_counts(alloc: Global, ports: usize) -> Result<Vec<u64>, NoMemory>
    ensures { IfOk result (λ counts. counts.items ≡ replicate ports 0) }
{
    let mut counts = Vec::new(alloc);
    for _ in 0..ports {
        counts.push(0)?;
    }
    Ok(counts)
}

// The lines of the packets that reached nothing, or that there is none.
fn lines(
    alloc: Global,
    names: &[Name],
    arrivals: &[Option<Arrived>],
    watched: &Watched,
) -> Result<Vec<u8>, NoMemory>
    ensures { IfOk result (λ text. text.items ≡ lines_or (packet_lines names.now (replicate (length names.now) 0) arrivals.now watched.now.journeys)) }
{
    let mut counts = no_counts(alloc, names.len())?;
    let mut text = Vec::new(alloc);
    put_lines(
        alloc,
        names,
        &mut counts,
        arrivals,
        &watched.journeys,
        &mut text,
    )?;
    if text.is_empty() {
        text.extend_from_slice(b"no packet is lost\n")?;
    }
    Ok(text)
}

/// The text of a trace: a line for each packet that reached nothing, in order of feeding, with the places where its copies ended, or
/// a line that there is none; and then how often what ended at each node, the most frequent first. `names` are those of the ports,
/// and `arrivals` the packets of the inputs that were fed.
///
/// # Errors
/// `NoMemory` where memory ran out, or where a count would be greater than 2^64 - 1.
pub fn trace_text(
    alloc: Global,
    names: &[Name],
    arrivals: &[Option<Arrived>],
    watched: &Watched,
) -> Result<Vec<u8>, NoMemory>
    ensures { IfOk result (λ text. text.items ≡ trace_text names.now (replicate (length names.now) 0) arrivals.now watched.now) }
{
    let mut text = lines(alloc, names, arrivals, watched)?;
    put_sums(alloc, &watched.sums, &mut text)?;
    Ok(text)
}
