// The lines of packets that reached nothing.
ghost use Rattle.std.specs.Prelude.{◌≡◌, ◌++◌, ◌<◌, ◌≤◌, ◌+◌, length, slice_index_or, slice_set, codes, IfOk, OnOk};
ghost use Rattle.ng_trace.specs.Text.{counts_with, line_of, line_unless, more_text, number_of, packet_line, packet_lines, packet_words, places_text, port_name};

use crate::words::put_place;
use crate::{Arrived, Journey, Place};
use ng_base::{Name, NoMemory};
use std::alloc::Global;

// Places, with a colon in front of the first.
fn put_places(alloc: Global, places: &[Place], out: &mut Vec<u8>) -> Result<(), NoMemory>
    ensures { OnOk result (out.new.items ≡ out.old.items ++ places_text (codes ": ") places.now) }
{
    let mut mark = *b": ";
    for place in places {
        out.extend_from_slice(&mark)?;
        put_place(alloc, place, out)?;
        mark = *b"; ";
    }
    Ok(())
}

fn put_more(alloc: Global, more: u64, out: &mut Vec<u8>) -> Result<(), NoMemory>
    ensures { OnOk result (out.new.items ≡ out.old.items ++ more_text more) }
{
    if more != 0 {
        let words = format!(in alloc; "; and {more} more")?;
        out.extend_from_slice(words.as_bytes())?;
    }
    Ok(())
}

// The name of a port; nothing where there is no such port.
fn port_name(names: &[Name], port: u32) -> &[u8]
    ensures { result.now ≡ port_name names.now port }
{
    let port = port as usize;
    if port >= names.len() {
        return &[];
    }
    names[port].bytes()
}

// The number of the next packet of a port, from 1.
fn number_of(counts: &[u64], port: u32) -> Result<u64, NoMemory>
    ensures { IfOk result (λ number. number ≡ number_of counts.now port) }
{
    let port = port as usize;
    if port >= counts.len() {
        return Ok(1);
    }
    match counts[port].checked_add(1) {
        Some(number) => Ok(number),
        None => Err(NoMemory),
    }
}

// So many packets came by a port, where it is there.
fn set_count(counts: &mut [u64], port: u32, number: u64)
    ensures { counts.new ≡ slice_set counts.old port number }
{
    let port = port as usize;
    if port < counts.len() {
        counts[port] = number;
    }
}

// The port, the number and the length of a packet.
#[tactic(auto, unfolding(crate::specs::Text::packet_words))]
fn put_words(
    alloc: Global,
    names: &[Name],
    number: u64,
    arrived: &Arrived,
    out: &mut Vec<u8>,
) -> Result<(), NoMemory>
    ensures { OnOk result (out.new.items ≡ out.old.items ++ packet_words (port_name names.now arrived.now.port) number arrived.now.length) }
{
    let bytes = arrived.length;
    let words = format!(in alloc; ":{number} {bytes} bytes")?;
    out.extend_from_slice(port_name(names, arrived.port))?;
    out.extend_from_slice(words.as_bytes())?;
    Ok(())
}

// The line of a packet, unless a copy of it reached something.
fn put_line(
    alloc: Global,
    names: &[Name],
    number: u64,
    arrived: &Arrived,
    journey: &Journey,
    out: &mut Vec<u8>,
) -> Result<(), NoMemory>
    ensures { OnOk result (out.new.items ≡ out.old.items
        ++ line_unless journey.now.reached (packet_line (port_name names.now arrived.now.port) number arrived.now.length journey.now)) }
{
    if journey.reached {
        return Ok(());
    }
    put_words(alloc, names, number, arrived, out)?;
    put_places(alloc, &journey.places, out)?;
    put_more(alloc, journey.more, out)?;
    out.push(b'\n')?;
    Ok(())
}

// The line of an input, which is counted at its port if it is a packet.
fn put_input(
    alloc: Global,
    names: &[Name],
    counts: &mut [u64],
    arrived: &Option<Arrived>,
    journey: &Journey,
    out: &mut Vec<u8>,
) -> Result<(), NoMemory>
    ensures text { OnOk result (out.new.items ≡ out.old.items ++ line_of names.now counts.old arrived.now journey.now) }
    ensures counts { OnOk result (counts.new ≡ counts_with counts.old arrived.now) }
{
    let Some(arrived) = arrived else {
        return Ok(());
    };
    let number = number_of(counts, arrived.port)?;
    set_count(counts, arrived.port, number);
    put_line(alloc, names, number, arrived, journey, out)
}

/// Appends the lines of the packets that reached nothing, in order of feeding. The ports' counts are of the packets before.
///
/// # Errors
/// `NoMemory` where memory ran out, or a count would be greater than 2^64 - 1.
pub(crate) fn put_lines(
    alloc: Global,
    names: &[Name],
    counts: &mut [u64],
    arrivals: &[Option<Arrived>],
    journeys: &[Journey],
    out: &mut Vec<u8>,
) -> Result<(), NoMemory>
    ensures { OnOk result (out.new.items ≡ out.old.items ++ packet_lines names.now counts.old arrivals.now journeys.now) }
{
    for i in 0..arrivals.len().min(journeys.len()) {
        put_input(alloc, names, counts, &arrivals[i], &journeys[i], out)?;
    }
    Ok(())
}
