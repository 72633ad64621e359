// The peer of a hook that goes, and whether its node stays.
ghost use Rattle.std.specs.Prelude.{◌≡◌, ℕ, ◌+◌, ◌<◌, ◌==◌, not, filter, length, Some};
ghost use Rattle.ng_machine.specs.Retire.{has_hooks, stays};
ghost use Rattle.ng_machine.specs.Run.{RunState};
ghost use Rattle.ng_machine.specs.World.{NodeRecord, hook_at, is_named, node_in, without_hook};
ghost use Rattle.ng_queue.specs.pending.Holds.{IsOutIn, done_from, in_world};
ghost use Rattle.ng_queue.specs.pending.Room.{Spends};
ghost use Rattle.ng_queue.specs.Queues.{spare_at};
ghost use Rattle.ng_core_apply.specs.removal.Removals.{world_asked};
ghost use Rattle.ng_queue.specs.tally.Tally.{HasNumbers};
ghost use Rattle.ng_queue.specs.tie.TieLaws.{one};
ghost use Rattle.ng_topology.specs.Topology.{IsAtHome};
ghost use Rattle.ng_core_state.specs.Stands.{MayLeave, Stands};

use ng_base::{Name, NodeId};
use ng_core_state::State;
use ng_core_state::step::{accept_at, finish};
use ng_machine::{Body, Hook, Item};
use ng_plan::node::Node;

/// A taken item is done, and the peer of a hook is to take its end away; there is room for that.
pub fn ask_peer<B: Node>(state: &mut State<B>, item: &Item, hook: &Hook)
    requires out { (a : RunState) × Stands state.old a × IsOutIn a item.now }
    requires leaves { MayLeave state.old.graph item.now }
    requires room { hook.now.peer.node.0 < length state.old.pending.queues.lists → 0 < spare_at state.old.pending.queues.spares hook.now.peer.node.0 }
    requires numbers { HasNumbers 2 state.old.pending.tally }
    ensures stands { (a : RunState) → Stands state.old a → IsOutIn a item.now → Stands state.new (in_world (done_from a item.now) (world_asked a item.now hook.now)) }
    ensures graph { state.new.graph ≡ state.old.graph }
    ensures told { state.new.told ≡ state.old.told }
    ensures spares { Spends (λ n. one (n == hook.now.peer.node.0)) state.old.pending state.new.pending }
    ensures lists { length state.new.pending.queues.lists ≡ length state.old.pending.queues.lists }
    ensures numbers { (k : ℕ) → HasNumbers (k + 2) state.old.pending.tally → HasNumbers k state.new.pending.tally }
{
    finish(state, item);
    let body = Body::Leave {
        hook: hook.peer.hook,
        link: hook.link,
    };
    accept_at(state, hook.peer.node, body, None, item.stamp);
}

/// The hook of that name at the node of that number, where both are there.
pub fn hook_of<B: Node>(state: &State<B>, id: NodeId, name: &Name) -> Option<Hook>
    ensures { result ≡ hook_at (node_in state.now.graph.nodes id) name.now }
{
    state.graph.peer(id, name).copied()
}

// Whether there is a hook of another name.
fn has_other(hooks: &[Hook], name: &Name) -> bool
    ensures { result ≡ has_hooks (filter (λ h. not (is_named name.now h)) hooks.now) }
{
    for hook in hooks {
        if hook.name != *name {
            return true;
        }
    }
    false
}

/// Whether a node, whose box is at home, stays without a hook.
pub fn stays_without<B: Node>(state: &State<B>, id: NodeId, hook: &Name) -> bool
    requires { IsAtHome state.now.graph id }
    ensures { (node : NodeRecord) → node_in state.now.graph.nodes id ≡ Some node → result ≡ stays (without_hook node hook.now) }
{
    state.graph.soundness();
    has_other(state.graph.hooks(id), hook) || state.graph.node(id).lasting()
}
