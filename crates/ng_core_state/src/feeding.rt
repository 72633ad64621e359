// A packet comes by the wire of a port.
ghost use Rattle.std.specs.Prelude.{◌≡◌, ℕ, ◌+◌, ◌<◌, ◌^◌, ◌==◌, slice_get, slice_set, length, Some};
ghost use Rattle.ng_machine.specs.declared.input.Input.TheVariants.{Packet as FedPacket};
ghost use Rattle.ng_machine.specs.Feed.{RunInput, arrive, feed_next};
ghost use Rattle.ng_machine.specs.Run.{RunState};
ghost use Rattle.ng_queue.specs.pending.Holds.{in_world};
ghost use Rattle.ng_queue.specs.pending.Room.{HasRoom};
ghost use Rattle.ng_queue.specs.tally.Tally.{HasNumbers};
ghost use Rattle.ng_queue.specs.tie.TieLaws.{one};
ghost use Rattle.ng_core_state.specs.declared.state.Port.{Port as KeptPort};
ghost use Rattle.ng_core_state.specs.Stands.{IsStanding, Stands};

use crate::{Port, State};
use ng_base::{NodeId, Packet, Stamp};
use ng_machine::{Body, Door};
use ng_plan::node::Node;

impl Port {
    // A packet is fed.
    fn feed(&mut self)
        requires { self.old.fed < 2 ^ 63 }
        ensures { self.new ≡ record self.old { fed = self.old.fed + 1 } }
    {
        self.fed += 1;
    }
}

// A packet is fed by the port.
fn feed_at(ports: &mut Vec<Port>, at: usize)
    requires at { at < length ports.old.items }
    requires low { (port : KeptPort) → slice_get ports.old.items at ≡ Some port → port.fed < 2 ^ 63 }
    ensures { (port : KeptPort) → slice_get ports.old.items at ≡ Some port
        → ports.new.items ≡ slice_set ports.old.items at (record port { fed = port.fed + 1 }) }
{
    ports[at].feed();
}

impl<B: Node> State<B> {
    // A packet comes by the wire of a port: it is counted, and the clock goes on.
    fn arrive(&mut self, port: u32, stamp: Stamp)
        requires port { port < length self.old.ports.items }
        requires ports { (kept : KeptPort) → slice_get self.old.ports.items port ≡ Some kept → kept.fed < 2 ^ 63 }
        requires low { self.old.pending.tally.fed < 2 ^ 63 }
        ensures stands { (a : RunState) → Stands self.old a
            → Stands self.new (in_world a (arrive (record a.world { fed = a.world.fed + 1 }) port stamp)) }
        ensures graph { self.new.graph ≡ self.old.graph }
        ensures queues { self.new.pending.queues ≡ self.old.pending.queues }
        ensures numbers { (k : ℕ) → HasNumbers k self.old.pending.tally → HasNumbers k self.new.pending.tally }
    {
        self.pending.feed();
        self.pending.pass_time(stamp);
        feed_at(&mut self.ports, port as usize);
    }

    /// Feeds a packet: it waits at the port's node.
    pub fn feed_packet(&mut self, port: u32, stamp: Stamp, packet: Packet)
        requires standing { IsStanding self.old }
        requires port { port < length self.old.ports.items }
        requires number { port + 2 < 2 ^ 32 }
        requires ports { (kept : KeptPort) → slice_get self.old.ports.items port ≡ Some kept → kept.fed < 2 ^ 63 }
        requires room { HasRoom (λ n. one (n == port + 2)) self.old.pending }
        requires numbers { HasNumbers 1 self.old.pending.tally }
        requires fed { self.old.pending.tally.fed < 2 ^ 63 }
        ensures { (a : RunState) (given : RunInput) → Stands self.old a
            → Stands self.new (in_world a (feed_next given a.world (Some (FedPacket port stamp packet)))) }
    {
        self.arrive(port, stamp);
        let node = NodeId(port + 2);
        if let Some(kind) = self.graph.kind(node) {
            let body = Body::Frame {
                door: Door::Wire,
                link: None,
                packet,
            };
            self.accept(node, kind, body, None, stamp);
        }
    }
}
