// ng_socket(4): hands each packet to the reader.
ghost use Rattle.std.specs.Prelude.{◌≡◌, OnOk};
ghost use Rattle.ng_machine.specs.Outcome.{nothing};
ghost use Rattle.ng_machine.specs.kinds.Socket.{hands_over};

use crate::lookup::leave;
use ng_base::{NoMemory, Packet};
use ng_machine::{Door, Exit, Outcome};

/// What becomes of a packet at a socket.
pub(crate) fn hand_over(door: &Door, packet: &Packet, outcome: &mut Outcome) -> Result<(), NoMemory>
    requires { outcome.old ≡ nothing }
    ensures { OnOk result (outcome.new ≡ hands_over door.now packet.now) }
{
    match door {
        Door::Hook(_) => leave(outcome, Exit::Reader, packet),
        Door::Wire => Ok(()),
    }
}
