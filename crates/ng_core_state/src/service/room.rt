// Room for all that an outcome brings about, before anything changes.
ghost use Rattle.std.specs.Prelude.{◌≡◌, ℕ, ◌+◌, ◌<◌, ◌≤◌, ◌^◌, length, map, take, vec_len, vec_capacity, slice_get, Some, OnOk};
ghost use Rattle.ng_machine.specs.Run.{RunState};
ghost use Rattle.ng_machine.specs.World.{node_in, port_of};
ghost use Rattle.ng_queue.specs.Queues.{spare_at};
ghost use Rattle.ng_core_state.specs.declared.state.Port.{Port as KeptPort};
ghost use Rattle.ng_core_state.specs.Room.{wants};
ghost use Rattle.ng_core_state.specs.Stands.{Stands, port_of as port_kept};
ghost use Rattle.ng_core_state.specs.service.Followers.{one_at};
ghost use Rattle.ng_core_state.specs.service.Front.{HasFront, IsEnough};

use crate::service::leaving::port_of;
use crate::step::{widen, widen_told};
use crate::{Port, State};
use ng_base::{Name, NoMemory, NodeId, Packet};
use ng_machine::Outcome;
use ng_plan::node::Node;

// Room for so many packets more that leave by the wire of a port.
fn widen_leaving(port: &mut Port, more: usize) -> Result<(), NoMemory>
    ensures room { OnOk result (vec_len port.new.leaving + more ≤ vec_capacity port.new.leaving) }
    ensures same { port_kept port.new ≡ port_kept port.old }
{
    port.leaving.reserve(more)?;
    Ok(())
}

// Room at the port of that place, where there is one.
fn widen_ports(ports: &mut Vec<Port>, at: usize, more: usize) -> Result<(), NoMemory>
    ensures room { OnOk result ((port : KeptPort) → slice_get ports.new.items at ≡ Some port
        → vec_len port.leaving + more ≤ vec_capacity port.leaving) }
    ensures same { map port_kept ports.new.items ≡ map port_kept ports.old.items }
{
    if at >= ports.len() {
        return Ok(());
    }
    widen_leaving(&mut ports[at], more)
}

// Room for so many packets more that leave by a node.
fn widen_port<B: Node>(state: &mut State<B>, at: NodeId, more: usize) -> Result<(), NoMemory>
    ensures stands { (a : RunState) → Stands state.old a → Stands state.new a }
    ensures room { OnOk result ((port : KeptPort) → slice_get state.new.ports.items (port_of at) ≡ Some port
        → vec_len port.leaving + more ≤ vec_capacity port.leaving) }
    ensures graph { state.new.graph ≡ state.old.graph }
    ensures pending { state.new.pending ≡ state.old.pending }
    ensures told { state.new.told ≡ state.old.told }
{
    widen_ports(&mut state.ports, port_of(at), more)
}

// Room for the packets that are sent out of hooks of a node, as far as they can still wait: where enough of them go on to fill the
// free places, the others are lost. A hub sends by its hooks in their order, but for one of them.
fn widen_sends<B: Node>(
    state: &mut State<B>,
    from: NodeId,
    sends: &[(Name, Packet)],
) -> Result<(), NoMemory>
    ensures stands { (a : RunState) → Stands state.old a → Stands state.new a }
    ensures room { OnOk result ((front : ℕ) × IsEnough 1 state.old.graph from sends.now state.old.pending front
        × ((n : ℕ) → n < length state.old.pending.queues.lists
        → spare_at state.old.pending.queues.spares n + wants (node_in state.old.graph.nodes from) (take front sends.now) n ≤ spare_at state.new.pending.queues.spares n)) }
    ensures graph { state.new.graph ≡ state.old.graph }
    ensures lists { state.new.pending.queues.lists ≡ state.old.pending.queues.lists }
    ensures tally { state.new.pending.tally ≡ state.old.pending.tally }
{
    let mut free = state.pending.free();
    let mut near = 0usize;
    for send in sends {
        if free == 0 {
            return Ok(());
        }
        if state.widen_for(from, &send.0, near)? {
            free -= 1;
        }
        near = near.wrapping_add(1);
    }
    Ok(())
}

// Room for an item at a node that is to get one.
fn widen_at<B: Node>(state: &mut State<B>, to: Option<NodeId>) -> Result<(), NoMemory>
    ensures stands { (a : RunState) → Stands state.old a → Stands state.new a }
    ensures room { OnOk result ((n : ℕ) → n < length state.old.pending.queues.lists
        → spare_at state.old.pending.queues.spares n + one_at to n ≤ spare_at state.new.pending.queues.spares n) }
    ensures graph { state.new.graph ≡ state.old.graph }
    ensures lists { state.new.pending.queues.lists ≡ state.old.pending.queues.lists }
    ensures tally { state.new.pending.tally ≡ state.old.pending.tally }
{
    match to {
        Some(to) => widen(state, to),
        None => Ok(()),
    }
}

/// Makes room for all that an outcome at a node brings about once the item is done that it is of, for an item at the node `to`, and
/// for an entry that is told. Of packets that are sent there is room for a front, where the others are lost.
///
/// # Errors
/// `NoMemory` where memory ran out, and for nothing else; nothing but room changed.
pub fn make_room<B: Node>(
    state: &mut State<B>,
    at: NodeId,
    outcome: &Outcome,
    to: Option<NodeId>,
) -> Result<(), NoMemory>
    ensures stands { (a : RunState) → Stands state.old a → Stands state.new a }
    ensures room { OnOk result (HasFront 1 state.old.graph at (one_at to) outcome.now.sends state.new.pending) }
    ensures told { OnOk result (vec_len state.new.told + (length outcome.now.leaves + 1) ≤ vec_capacity state.new.told) }
    ensures port { OnOk result ((port : KeptPort) → slice_get state.new.ports.items (port_of at) ≡ Some port
        → vec_len port.leaving + length outcome.now.leaves ≤ vec_capacity port.leaving) }
    ensures few { length outcome.now.leaves + length outcome.now.sends < 2 ^ 61 }
    ensures graph { state.new.graph ≡ state.old.graph }
    ensures lists { state.new.pending.queues.lists ≡ state.old.pending.queues.lists }
    ensures tally { state.new.pending.tally ≡ state.old.pending.tally }
{
    let leaves = outcome.leaves.as_slice().len();
    let sends = outcome.sends.as_slice();
    let _count = leaves + sends.len();
    widen_sends(state, at, sends)?;
    widen_at(state, to)?;
    widen_told(state, leaves + 1)?;
    widen_port(state, at, leaves)
}
