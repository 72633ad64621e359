// The text of a forecast.
ghost use Rattle.std.specs.Prelude.{◌≡◌, ◌++◌, ◌<◌, ◌≤◌, ◌+◌, ◌^◌, ◌==◌, ℕ, [], map, length, slice_index, if◌then◌else◌, OnOk, IfOk};
ghost use Rattle.std.specs.List.{flat_map};
ghost use Rattle.std.specs.BTreeMap.{keys};
ghost use Rattle.ng_machine.specs.Spread.{Spread};
ghost use Rattle.ng_forecast.specs.Counts.{AreCounts, CountsOne, HaveRoom};
ghost use Rattle.ng_forecast.specs.Hooks.{hook_count};
ghost use Rattle.ng_forecast.specs.Text.{bag_text, hook_line, port_line, port_lines};

use crate::hooks::{HookCounts, count_hook, no_hooks};
use ng_args::PortWord;
use ng_base::{Name, NoMemory, Packet};
use ng_machine::Place;
use std::alloc::Global;

// How many packets leave by the wire of each port, go up to its host, and go to the reader by each hook.
#[derive(Drop)]
struct Counts {
    left: [u64; 64],
    up: [u64; 64],
    hooks: HookCounts,
}

// One more at a port, where it is one of these.
fn count_port(counts: &mut [u64; 64], port: u32)
    requires { (k : ℕ) → k < 64 → slice_index counts.old k + 1 < 2 ^ 64 }
    ensures { (k : ℕ) → k < 64
        → slice_index counts.new k ≡ (if k == port then 1 else 0) + slice_index counts.old k }
{
    let port = port as usize;
    if port < 64 {
        counts[port] += 1;
    }
}

// Another packet at a place.
fn count_place(counts: &mut Counts, place: &Place) -> Result<(), NoMemory>
    requires { HaveRoom counts.old }
    ensures { OnOk result (CountsOne place.now counts.old counts.new) }
{
    match place {
        Place::Wire(port) => count_port(&mut counts.left, *port),
        Place::Host(port) => count_port(&mut counts.up, *port),
        Place::Reader(hook) => count_hook(&mut counts.hooks, hook)?,
    }
    Ok(())
}

// Nothing is counted so far.
fn no_counts(alloc: Global) -> Counts
    ensures { AreCounts result [] }
{
    Counts {
        left: [0; 64],
        up: [0; 64],
        hooks: no_hooks(alloc),
    }
}

// How many packets are at each place.
fn count_all(alloc: Global, bag: &[(Place, Packet)]) -> Result<Counts, NoMemory>
    ensures { IfOk result (λ counts. AreCounts counts bag.now) }
{
    let mut counts = no_counts(alloc);
    for (place, _) in bag {
        count_place(&mut counts, place)?;
    }
    Ok(counts)
}

fn put_port_line(
    alloc: Global,
    text: &mut Vec<u8>,
    name: &Name,
    left: u64,
    up: u64,
) -> Result<(), NoMemory>
    ensures { OnOk result (text.new.items ≡ text.old.items ++ port_line name.now left up) }
{
    let counts = format!(in alloc; ": left {left}, up {up}\n")?;
    text.extend_from_slice(b"port ")?;
    text.extend_from_slice(name.bytes())?;
    text.extend_from_slice(counts.as_bytes())?;
    Ok(())
}

fn put_hook_line(
    alloc: Global,
    text: &mut Vec<u8>,
    name: &Name,
    packets: u64,
) -> Result<(), NoMemory>
    ensures { OnOk result (text.new.items ≡ text.old.items ++ hook_line name.now packets) }
{
    let count = format!(in alloc; ": {packets}\n")?;
    text.extend_from_slice(b"hook ")?;
    text.extend_from_slice(name.bytes())?;
    text.extend_from_slice(count.as_bytes())?;
    Ok(())
}

fn put_ports(
    alloc: Global,
    text: &mut Vec<u8>,
    ports: &[PortWord],
    counts: &Counts,
) -> Result<(), NoMemory>
    requires { length ports.now ≤ 64 }
    ensures { OnOk result ((bag : Spread) → AreCounts counts.now bag
        → text.new.items ≡ text.old.items ++ port_lines 0 (map (λ port. port.name) ports.now) bag) }
{
    for i in 0..ports.len() {
        put_port_line(alloc, text, &ports[i].name, counts.left[i], counts.up[i])?;
    }
    Ok(())
}

fn put_hooks(alloc: Global, text: &mut Vec<u8>, hooks: &HookCounts) -> Result<(), NoMemory>
    ensures { OnOk result (text.new.items
        ≡ text.old.items ++ flat_map (λ name. hook_line name (hook_count hooks.now name)) (keys hooks.now.places)) }
{
    for (name, place) in &hooks.places {
        put_hook_line(alloc, text, name, hooks.count(*place))?;
    }
    Ok(())
}

/// The text of a bag: a line for each port, and one for each hook of the socket by which packets go to the reader.
///
/// # Errors
/// `NoMemory` where memory ran out, and for nothing else.
pub(crate) fn bag_text(
    alloc: Global,
    ports: &[PortWord],
    bag: &[(Place, Packet)],
) -> Result<Vec<u8>, NoMemory>
    requires { length ports.now ≤ 64 }
    ensures { IfOk result (λ text. text.items ≡ bag_text (map (λ port. port.name) ports.now) bag.now) }
{
    let counts = count_all(alloc, bag)?;
    let mut text = Vec::new(alloc);
    put_ports(alloc, &mut text, ports, &counts)?;
    put_hooks(alloc, &mut text, &counts.hooks)?;
    Ok(text)
}
