// ng_echo(4): sends each packet back.
ghost use Rattle.std.specs.Prelude.{◌≡◌, OnOk};
ghost use Rattle.ng_machine.specs.kinds.Echo.{echoes};
ghost use Rattle.ng_machine.specs.Outcome.{nothing};

use crate::lookup::send;
use ng_base::{NoMemory, Packet};
use ng_machine::{Door, Outcome};

/// What becomes of a packet at an echo.
pub(crate) fn send_back(door: &Door, packet: &Packet, outcome: &mut Outcome) -> Result<(), NoMemory>
    requires { outcome.old ≡ nothing }
    ensures { OnOk result (outcome.new ≡ echoes door.now packet.now) }
{
    match door {
        Door::Hook(hook) => send(outcome, hook, packet),
        Door::Wire => Ok(()),
    }
}
