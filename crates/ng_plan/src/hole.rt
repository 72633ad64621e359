// ng_hole(4): discards each packet.
ghost use Rattle.std.specs.Prelude.{◌≡◌};
ghost use Rattle.ng_machine.specs.kinds.Hole.{discards};
ghost use Rattle.ng_machine.specs.Outcome.{nothing};

use ng_base::Packet;
use ng_machine::{Door, Outcome};

/// What becomes of a packet at a hole.
pub(crate) fn discard(_door: &Door, _packet: &Packet, _outcome: &mut Outcome)
    requires { _outcome.old ≡ nothing }
    ensures { _outcome.new ≡ discards _door.now _packet.now }
{}
