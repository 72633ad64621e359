// What is told.
ghost use Rattle.std.specs.Prelude.{◌≡◌, ℕ, ◌+◌, ◌<◌, vec_len, vec_capacity};
ghost use Rattle.ng_base.specs.declared.ids.NodeId.{NodeId as NodeNumber};
ghost use Rattle.ng_base.specs.declared.ids.Stamp.{Stamp as TheStamp};
ghost use Rattle.ng_machine.specs.declared.body.Exit.TheVariants.{Reader};
ghost use Rattle.ng_machine.specs.Change.{leave, tell};
ghost use Rattle.ng_machine.specs.Run.{RunState};
ghost use Rattle.ng_queue.specs.pending.Holds.{in_world};
ghost use Rattle.ng_queue.specs.tally.Tally.{HasNumbers};
ghost use Rattle.ng_core_state.specs.Stands.{Stands};

use crate::State;
use ng_base::{Name, Packet};
use ng_machine::Told;
use ng_plan::node::Node;

impl<B: Node> State<B> {
    /// An entry is told; there is room for it.
    pub fn tell(&mut self, told: Told)
        requires room { vec_len self.old.told < vec_capacity self.old.told }
        ensures stands { (a : RunState) → Stands self.old a → Stands self.new (in_world a (tell a.world told)) }
        ensures graph { self.new.graph ≡ self.old.graph }
        ensures pending { self.new.pending ≡ self.old.pending }
    {
        self.told.push_reserved(told);
    }

    /// A packet reaches the reader of the socket and is told, by the hook that it came by; or it is lost, where as many
    /// bytes left as may. There is room for the entry.
    pub fn read(&mut self, hook: Name, packet: Packet)
        requires room { vec_len self.old.told < vec_capacity self.old.told }
        requires numbers { HasNumbers 1 self.old.pending.tally }
        ensures stands { (a : RunState) (at : NodeNumber) (stamp : TheStamp) → Stands self.old a
            → Stands self.new (in_world a (leave a.world at stamp Reader hook packet)) }
        ensures graph { self.new.graph ≡ self.old.graph }
        ensures queues { self.new.pending.queues ≡ self.old.pending.queues }
        ensures numbers { (k : ℕ) → HasNumbers (k + 1) self.old.pending.tally → HasNumbers k self.new.pending.tally }
    {
        if self.pending.leave(&packet) {
            self.told.push_reserved(Told::Frame { hook, packet });
        }
    }
}
