// ng_tee(4): passes packets between two hooks, and copies them to two more.
ghost use Rattle.std.specs.Prelude.{◌≡◌, ◌∷◌, ◌++◌, [], length, OnOk};
ghost use Rattle.std.specs.List.{filter};
ghost use Rattle.ng_base.specs.Names.{has_name};
ghost use Rattle.ng_machine.specs.Counters.{counts_packet};
ghost use Rattle.ng_machine.specs.Outcome.{nothing};
ghost use Rattle.ng_machine.specs.kinds.Tee.{copies, tees};

use crate::lookup::{Hooks, count_packet, is_named, left, left2right, right, right2left, send};
use ng_base::{Name, NoMemory, Packet};
use ng_machine::{Door, Outcome};

/// The numbers of the counters of octets and of frames that come by a hook and that go out of it.
const IN_OCTETS: u64 = 0;

const IN_FRAMES: u64 = 1;

const OUT_OCTETS: u64 = 2;

const OUT_FRAMES: u64 = 3;

/// A packet out of a hook, where it is counted, behind what an outcome has already.
fn send_and_count(hook: &Name, packet: &Packet, outcome: &mut Outcome) -> Result<(), NoMemory>
    ensures { OnOk result (outcome.new ≡ record outcome.old {
      sends = outcome.old.sends ++ (hook.now, packet.now) ∷ [];
      counts = outcome.old.counts ++ counts_packet 3 2 hook.now (length packet.now);
    }) }
{
    send(outcome, hook, packet)?;
    let len = packet.bytes().len() as u64;
    count_packet(&mut outcome.counts, OUT_FRAMES, OUT_OCTETS, hook, len)
}

/// A packet that comes by a hook, out of those of some others that are there.
fn copy_to(
    hooks: &Hooks,
    hook: &Name,
    others: &[Name],
    packet: &Packet,
    outcome: &mut Outcome,
) -> Result<(), NoMemory>
    requires { outcome.old ≡ nothing }
    ensures { OnOk result (outcome.new ≡ copies hook.now (filter (has_name hooks.now) others.now) packet.now) }
{
    let len = packet.bytes().len() as u64;
    count_packet(&mut outcome.counts, IN_FRAMES, IN_OCTETS, hook, len)?;
    for other in others {
        if hooks.has(other) {
            send_and_count(other, packet, outcome)?;
        }
    }
    Ok(())
}

/// A packet that comes by a hook, out of the hooks that it is passed and copied to.
fn tee_by(
    hooks: &Hooks,
    hook: &Name,
    packet: &Packet,
    outcome: &mut Outcome,
) -> Result<(), NoMemory>
    requires { outcome.old ≡ nothing }
    ensures { OnOk result (outcome.new ≡ tees hooks.now (Door.Hook hook.now) packet.now) }
{
    if is_named(hook, b"right") {
        copy_to(hooks, hook, &[right2left(), left()], packet, outcome)
    } else if is_named(hook, b"left") {
        copy_to(hooks, hook, &[left2right(), right()], packet, outcome)
    } else if is_named(hook, b"right2left") {
        copy_to(hooks, hook, &[right()], packet, outcome)
    } else {
        copy_to(hooks, hook, &[left()], packet, outcome)
    }
}

/// What becomes of a packet at a tee.
pub(crate) fn copy_through(
    hooks: &Hooks,
    door: &Door,
    packet: &Packet,
    outcome: &mut Outcome,
) -> Result<(), NoMemory>
    requires { outcome.old ≡ nothing }
    ensures { OnOk result (outcome.new ≡ tees hooks.now door.now packet.now) }
{
    match door {
        Door::Hook(hook) => tee_by(hooks, hook, packet, outcome),
        Door::Wire => Ok(()),
    }
}
