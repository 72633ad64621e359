// ng_split(4): parts what comes and what goes.
ghost use Rattle.std.specs.Prelude.{◌≡◌, OnOk};
ghost use Rattle.ng_machine.specs.Outcome.{nothing};
ghost use Rattle.ng_machine.specs.kinds.Split.{parts};

use crate::lookup::{Hooks, is_named, mixed, out_hook, send_by};
use ng_base::{Errno, Name, NoMemory, Packet};
use ng_machine::{Door, Outcome};

fn part_by(
    hooks: &Hooks,
    hook: &Name,
    packet: &Packet,
    outcome: &mut Outcome,
) -> Result<(), NoMemory>
    requires { outcome.old ≡ nothing }
    ensures { OnOk result (outcome.new ≡ parts hooks.now (Door.Hook hook.now) packet.now) }
{
    if is_named(hook, b"in") {
        send_by(outcome, hooks, &mixed(), packet)
    } else if is_named(hook, b"mixed") {
        send_by(outcome, hooks, &out_hook(), packet)
    } else {
        outcome.errno = Errno::INVAL;
        Ok(())
    }
}

/// What becomes of a packet at a split.
pub(crate) fn part(
    hooks: &Hooks,
    door: &Door,
    packet: &Packet,
    outcome: &mut Outcome,
) -> Result<(), NoMemory>
    requires { outcome.old ≡ nothing }
    ensures { OnOk result (outcome.new ≡ parts hooks.now door.now packet.now) }
{
    match door {
        Door::Hook(hook) => part_by(hooks, hook, packet, outcome),
        Door::Wire => Ok(()),
    }
}
