// A packet out of some hooks, and what is counted of it.
ghost use Rattle.std.specs.Prelude.{◌≡◌, IfOk, OnOk, ◌++◌, map};
ghost use Rattle.ng_machine.specs.Counters.{counts_packet, counts_packets};

use ng_base::{Name, NoMemory, Packet, Sequence};
use ng_machine::{Counts, Sends};
use std::alloc::Global;

/// The packet, out of each of some hooks in their order. The packet is shared and not copied.
///
/// # Errors
/// `NoMemory` where memory ran out, and for nothing else.
pub fn send_to(alloc: Global, hooks: &[Name], packet: &Packet) -> Result<Sends, NoMemory>
    ensures { IfOk result (λ sends. sends ≡ map (λ hook. (hook, packet.now)) hooks.now) }
{
    let mut sends = Sequence::new(alloc);
    for hook in hooks {
        sends.push((*hook, packet.again()?))?;
    }
    Ok(sends)
}

/// Counts a packet of this length that comes by a hook or goes out of it: one under the number of a counter of
/// packets, and its length under that of a counter of octets.
///
/// # Errors
/// `NoMemory` where memory ran out, and for nothing else.
pub fn count_packet(
    counts: &mut Counts,
    packets: u64,
    octets: u64,
    hook: &Name,
    len: u64,
) -> Result<(), NoMemory>
    ensures { OnOk result (counts.new ≡ counts.old ++ counts_packet packets octets hook.now len) }
{
    counts.push((*hook, packets, 1))?;
    counts.push((*hook, octets, len))?;
    Ok(())
}

/// Counts a packet that goes out of each of some hooks, as `count_packet` does.
///
/// # Errors
/// `NoMemory` where memory ran out, and for nothing else.
pub fn count_packets(
    counts: &mut Counts,
    packets: u64,
    octets: u64,
    hooks: &[Name],
    len: u64,
) -> Result<(), NoMemory>
    ensures { OnOk result (counts.new ≡ counts.old ++ counts_packets packets octets hooks.now len) }
{
    for hook in hooks {
        count_packet(counts, packets, octets, hook, len)?;
    }
    Ok(())
}
