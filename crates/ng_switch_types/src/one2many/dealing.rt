// What becomes of a packet.
ghost use Rattle.std.specs.Prelude.{◌≡◌, ◌++◌, IfOk};
ghost use Rattle.ng_machine.specs.Counters.{counts_packet, counts_packets};
ghost use Rattle.ng_machine.specs.kinds.One2many.{dealing_errno, deals, deals_to};
ghost use Rattle.ng_switch_types.specs.one2many.Node.{names_of};

use crate::one2many::one2many::One2many;
use ng_base::{Errno, Name, NoMemory, Packet, Sequence};
use ng_machine::{Counts, Door, Outcome};
use ng_plan::{count_packet, count_packets, nothing, one, send_to};
use std::alloc::Global;

/// The numbers of the counters in a row.
const RECEIVED_OCTETS: u64 = 0;

const RECEIVED_PACKETS: u64 = 1;

const SENT_OCTETS: u64 = 2;

const SENT_PACKETS: u64 = 3;

/// What is counted of a packet that comes by a hook and goes out of others.
fn count(alloc: Global, hook: &Name, others: &[Name], len: u64) -> Result<Counts, NoMemory>
    ensures { IfOk result (λ counts. counts ≡ counts_packet 1 0 hook.now len ++ counts_packets 3 2 others.now len) }
{
    let mut counts = Sequence::new(alloc);
    count_packet(&mut counts, RECEIVED_PACKETS, RECEIVED_OCTETS, hook, len)?;
    count_packets(&mut counts, SENT_PACKETS, SENT_OCTETS, others, len)?;
    Ok(counts)
}

/// A packet by `one` without an active link is refused.
fn errno_of(hook: &Name, others: &[Name]) -> Errno
    ensures { result ≡ dealing_errno hook.now others.now }
{
    if *hook == one() && others.is_empty() {
        Errno::NOTCONN
    } else {
        Errno::NONE
    }
}

fn deal_to(
    alloc: Global,
    hook: &Name,
    others: &[Name],
    packet: &Packet,
) -> Result<Outcome, NoMemory>
    ensures { IfOk result (λ outcome. outcome ≡ deals_to hook.now others.now packet.now) }
{
    Ok(Outcome {
        sends: send_to(alloc, others, packet)?,
        counts: count(alloc, hook, others, packet.bytes().len() as u64)?,
        errno: errno_of(hook, others),
        ..nothing(alloc)
    })
}

/// What becomes of a packet by a door.
///
/// # Errors
/// `NoMemory` where memory ran out, and for nothing else.
pub fn deal(
    alloc: Global,
    one2many: &One2many,
    door: &Door,
    packet: &Packet,
) -> Result<Outcome, NoMemory>
    ensures { IfOk result (λ outcome. outcome ≡ deals one2many.now (names_of (one2many.now).rows) door.now packet.now) }
{
    match door {
        Door::Hook(hook) => {
            let others = one2many.targets(alloc, hook)?;
            deal_to(alloc, hook, &others, packet)
        }
        Door::Wire => Ok(nothing(alloc)),
    }
}
