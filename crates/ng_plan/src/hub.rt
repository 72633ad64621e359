// ng_hub(4): sends each packet out of every other hook.
ghost use Rattle.std.specs.Prelude.{◌≡◌, OnOk};
ghost use Rattle.ng_machine.specs.kinds.Hub.{fans};
ghost use Rattle.ng_machine.specs.Outcome.{nothing};

use crate::lookup::send;
use ng_base::{Name, NoMemory, Packet};
use ng_machine::{Door, Outcome};

/// The packet, out of each hook but one.
fn send_to_others(
    hooks: &[Name],
    hook: &Name,
    packet: &Packet,
    outcome: &mut Outcome,
) -> Result<(), NoMemory>
    requires { outcome.old ≡ nothing }
    ensures { OnOk result (outcome.new ≡ fans hooks.now (Door.Hook hook.now) packet.now) }
{
    for other in hooks {
        if *other != *hook {
            send(outcome, other, packet)?;
        }
    }
    Ok(())
}

/// What becomes of a packet at a hub.
pub(crate) fn fan_out(
    hooks: &[Name],
    door: &Door,
    packet: &Packet,
    outcome: &mut Outcome,
) -> Result<(), NoMemory>
    requires { outcome.old ≡ nothing }
    ensures { OnOk result (outcome.new ≡ fans hooks.now door.now packet.now) }
{
    match door {
        Door::Hook(hook) => send_to_others(hooks, hook, packet, outcome),
        Door::Wire => Ok(()),
    }
}
