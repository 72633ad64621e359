// A box comes home, and an item is put back.
ghost use Rattle.std.specs.Prelude.{◌≡◌, slice_set, Some};
ghost use Rattle.ng_machine.specs.Run.{RunState};
ghost use Rattle.ng_machine.specs.World.{NodeRecord, node_at};
ghost use Rattle.ng_queue.specs.pending.Holds.{IsOutIn, in_world, with_untaken};
ghost use Rattle.ng_topology.specs.Topology.{FitsNodeAt, IsThere, give_box, with_kept};
ghost use Rattle.ng_core_state.specs.Stands.{MayLeave, Stands};

use crate::State;
use ng_base::NodeId;
use ng_plan::node::Node;
use ng_queue::BoxedItem;

impl<B: Node> State<B> {
    /// A box comes home, with what it keeps then.
    pub fn home(&mut self, at: NodeId, node: B)
        requires there { IsThere self.old.graph at }
        requires fits { FitsNodeAt self.old.graph at (B.state node) }
        ensures stands { (a : RunState) (was : NodeRecord) → Stands self.old a → node_at a.world at ≡ Some was
            → Stands self.new (in_world a (record a.world { nodes = slice_set a.world.nodes at.0 (Some (with_kept (B.state node).kept was)) })) }
        ensures graph { self.new.graph ≡ give_box self.old.graph at (B.state node) }
        ensures pending { self.new.pending ≡ self.old.pending }
    {
        self.graph.give(at, node);
    }

    /// A taken item is put back at its place; where it is a writer, its node's box is at home.
    pub fn back(&mut self, item: BoxedItem)
        requires out { (a : RunState) × Stands self.old a × IsOutIn a item }
        requires leaves { MayLeave self.old.graph item }
        ensures stands { (a : RunState) → Stands self.old a → IsOutIn a item → Stands self.new (with_untaken a item.id.0) }
        ensures graph { self.new.graph ≡ self.old.graph }
        ensures tally { self.new.pending.tally ≡ self.old.pending.tally }
    {
        self.pending.back(item);
    }
}
