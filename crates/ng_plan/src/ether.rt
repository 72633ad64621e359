// ng_ether(4): joins the wire and the host of a port to the graph.
ghost use Rattle.std.specs.Prelude.{◌≡◌, OnOk};
ghost use Rattle.ng_machine.specs.kinds.Ether.{passes};
ghost use Rattle.ng_machine.specs.Outcome.{nothing};

use crate::lookup::{is_named, leave, lower, send};
use ng_base::{NoMemory, Packet};
use ng_machine::{Door, Exit, Outcome};

/// What becomes of a packet at an ether, which has the hook `lower` or not.
pub(crate) fn pass(
    has_lower: bool,
    door: &Door,
    packet: &Packet,
    outcome: &mut Outcome,
) -> Result<(), NoMemory>
    requires { outcome.old ≡ nothing }
    ensures { OnOk result (outcome.new ≡ passes has_lower door.now packet.now) }
{
    match door {
        Door::Wire if has_lower => send(outcome, &lower(), packet),
        Door::Wire => leave(outcome, Exit::Host, packet),
        Door::Hook(hook) if is_named(hook, b"lower") => leave(outcome, Exit::Wire, packet),
        Door::Hook(_) => leave(outcome, Exit::Host, packet),
    }
}
