// The peers of a node's hooks are to take their ends away, since the node goes.
ghost use Rattle.std.specs.Prelude.{◌≡◌, ℕ, ◌+◌, ◌<◌, ◌≤◌, ◌^◌, ◌==◌, length, IfOk, OnOk, Some};
ghost use Rattle.ng_machine.specs.Change.{change_all};
ghost use Rattle.ng_machine.specs.Retire.{leave_step_to, leave_steps};
ghost use Rattle.ng_machine.specs.Run.{RunState};
ghost use Rattle.ng_machine.specs.World.{NodeRecord, node_in};
ghost use Rattle.ng_queue.specs.pending.Holds.{in_world};
ghost use Rattle.ng_queue.specs.pending.Room.{Spends};
ghost use Rattle.ng_queue.specs.Queues.{spare_at};
ghost use Rattle.ng_core_apply.specs.removal.Drops.{HasRoomThere, peers};
ghost use Rattle.ng_queue.specs.tally.Tally.{HasNumbers};
ghost use Rattle.ng_queue.specs.tie.TieLaws.{one};
ghost use Rattle.ng_topology.specs.Topology.{IsThere};
ghost use Rattle.ng_core_state.specs.Stands.{IsStanding, Stands};

use ng_base::{NoMemory, NodeId, Stamp};
use ng_core_state::State;
use ng_core_state::step::{accept_at, widen};
use ng_machine::{Body, Hook};
use ng_plan::node::Node;
use std::alloc::Global;

/// The hooks of a node that is there.
///
/// # Errors
/// `NoMemory` where memory ran out, and for nothing else.
pub fn hooks_of<B: Node>(alloc: Global, state: &State<B>, id: NodeId) -> Result<Vec<Hook>, NoMemory>
    requires { IsThere state.now.graph id }
    ensures { IfOk result (λ hooks. (node : NodeRecord) → node_in state.now.graph.nodes id ≡ Some node → hooks.items ≡ node.hooks) }
{
    let hooks = Vec::from_slice(alloc, state.graph.hooks(id))?;
    Ok(hooks)
}

/// Makes room for one item more at the peer of each hook.
///
/// # Errors
/// `NoMemory` where memory ran out, and for nothing else; nothing but room changed.
pub fn widen_peers<B: Node>(state: &mut State<B>, hooks: &[Hook]) -> Result<(), NoMemory>
    ensures stands { (a : RunState) → Stands state.old a → Stands state.new a }
    ensures room { OnOk result ((m : ℕ) → m < length state.old.pending.queues.lists
        → spare_at state.old.pending.queues.spares m + peers hooks.now m ≤ spare_at state.new.pending.queues.spares m) }
    ensures few { length hooks.now < 2 ^ 61 }
    ensures lists { state.new.pending.queues.lists ≡ state.old.pending.queues.lists }
    ensures tally { state.new.pending.tally ≡ state.old.pending.tally }
    ensures graph { state.new.graph ≡ state.old.graph }
    ensures told { state.new.told ≡ state.old.told }
{
    for hook in hooks {
        widen(state, hook.peer.node)?;
    }
    Ok(())
}

// The peer of a hook is to take its end away, where it is another node; there is room for that.
fn ask<B: Node>(state: &mut State<B>, at: NodeId, stamp: Stamp, hook: &Hook)
    requires standing { IsStanding state.old }
    requires room { (node : NodeRecord) → node_in state.old.graph.nodes hook.now.peer.node ≡ Some node → 0 < spare_at state.old.pending.queues.spares hook.now.peer.node.0 }
    requires numbers { HasNumbers 1 state.old.pending.tally }
    ensures stands { (a : RunState) → Stands state.old a → Stands state.new (in_world a (change_all at stamp a.world (leave_step_to at hook.now))) }
    ensures spares { Spends (λ n. one (n == hook.now.peer.node.0)) state.old.pending state.new.pending }
    ensures lists { length state.new.pending.queues.lists ≡ length state.old.pending.queues.lists }
    ensures graph { state.new.graph ≡ state.old.graph }
    ensures told { state.new.told ≡ state.old.told }
    ensures numbers { (k : ℕ) → HasNumbers (k + 1) state.old.pending.tally → HasNumbers k state.new.pending.tally }
{
    if hook.peer.node.0 == at.0 {
        return;
    }
    let body = Body::Leave {
        hook: hook.peer.hook,
        link: hook.link,
    };
    accept_at(state, hook.peer.node, body, None, stamp);
}

/// The peer of each hook is to take its end away, where it is another node; there is room for that.
pub fn ask_peers<B: Node>(state: &mut State<B>, at: NodeId, stamp: Stamp, hooks: Vec<Hook>)
    requires standing { IsStanding state.old }
    requires room { HasRoomThere (peers hooks.items) state.old }
    requires numbers { HasNumbers (length hooks.items) state.old.pending.tally }
    ensures stands { (a : RunState) → Stands state.old a → Stands state.new (in_world a (change_all at stamp a.world (leave_steps at hooks.items))) }
    ensures spares { (m : ℕ) → spare_at state.old.pending.queues.spares m ≤ spare_at state.new.pending.queues.spares m + peers hooks.items m }
    ensures lists { length state.new.pending.queues.lists ≡ length state.old.pending.queues.lists }
    ensures graph { state.new.graph ≡ state.old.graph }
    ensures told { state.new.told ≡ state.old.told }
    ensures numbers { (k : ℕ) → HasNumbers (k + length hooks.items) state.old.pending.tally → HasNumbers k state.new.pending.tally }
{
    for hook in hooks {
        ask(state, at, stamp, &hook);
    }
}
