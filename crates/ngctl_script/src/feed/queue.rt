// The packets of a capture that were not fed yet.
ghost use Rattle.std.specs.Prelude.{◌≡◌, ◌∷◌, length, MatchOption, [], reverse};

use ng_base::{Packet, Sequence, Stamp};
use std::marker::Model;

/// The packets of a capture that were not fed yet. A contract sees them as a list, with their times.
#[derive(Drop)]
pub(super) struct Queue {
    // the last one is the next
    behind: Vec<(Stamp, Packet)>,
}

impl Model for Queue {
    ghost use Rattle.std.specs.Prelude.{ℕ, List, reverse};
    ghost use Rattle.ng_base.specs.declared.ids.Stamp.{Stamp};

    ghost Value = { List (Stamp × List ℕ) };

    ghost use Rattle.std.specs.Prelude.{All};
    ghost use Rattle.ngctl_script.specs.feed.Early.{IsEarly};

    ghost view = { λ q. reverse q.behind.items };

    ghost invariant = { λ q. All IsEarly q.behind.items };
}

fn turned_round(mut packets: Vec<(Stamp, Packet)>) -> Vec<(Stamp, Packet)>
    ensures { result.items ≡ reverse packets.items }
{
    packets.as_mut_slice().reverse();
    packets
}

impl Queue {
    ghost use Rattle.std.specs.Prelude.{All, IfSome};
    ghost use Rattle.ngctl_script.specs.feed.Early.{IsEarly};
    ghost use Rattle.ngctl_script.specs.feed.Merge.{first_stamp};

    /// All packets of a capture.
    pub fn of(packets: Sequence<(Stamp, Packet)>) -> Queue
        requires { All IsEarly packets }
        ensures { result ≡ packets }
    {
        Queue {
            behind: turned_round(packets.into_vec()),
        }
    }

    /// How many packets there are.
    pub fn len(&self) -> usize
        ensures { result ≡ length self.now }
    {
        self.behind.len()
    }

    /// The time of the next packet.
    pub fn first(&self) -> Option<Stamp>
        ensures { result ≡ first_stamp self.now }
    {
        match self.behind.last() {
            Some((stamp, _)) => Some(*stamp),
            None => None,
        }
    }

    /// Takes the next packet.
    pub fn take(&mut self) -> Option<(Stamp, Packet)>
        ensures taken { MatchOption result ((self.old ≡ []) × (self.new ≡ [])) (λ packet. self.old ≡ packet ∷ self.new) }
        ensures early { IfSome result IsEarly }
    {
        self.behind.pop()
    }
}
