// Time passes at bridges.
ghost use Rattle.std.specs.Prelude.{◌≡◌, ℕ, ◌+◌, ◌<◌, ◌≤◌, length, true, OnOk};
ghost use Rattle.ng_machine.specs.Feed.{feed_tick, feed_ticks, is_bridge};
ghost use Rattle.ng_machine.specs.Run.{RunState};
ghost use Rattle.ng_machine.specs.World.{node_id, node_in};
ghost use Rattle.ng_queue.specs.pending.Holds.{in_world};
ghost use Rattle.ng_queue.specs.Queues.{spare_at};
ghost use Rattle.ng_queue.specs.tally.Tally.{HasNumbers};
ghost use Rattle.ng_core_state.specs.Stands.{IsStanding, Stands};

use ng_base::{Kind, NoMemory, NodeId};
use ng_core_state::State;
use ng_core_state::step::{accept_at, widen};
use ng_machine::Body;
use ng_plan::node::Node;
use ng_topology::Graph;

// Whether the node of that number is a bridge.
fn is_bridge<B: Node>(graph: &Graph<B>, id: NodeId) -> bool
    ensures { result ≡ is_bridge (node_in graph.now.nodes id) }
{
    match graph.kind(id) {
        Some(kind) => kind.number() == Kind::Bridge.number(),
        None => false,
    }
}

// Room for an item more, where the node of that number is a bridge.
fn widen_bridge<B: Node>(state: &mut State<B>, id: NodeId) -> Result<(), NoMemory>
    ensures stands { (a : RunState) → Stands state.old a → Stands state.new a }
    ensures room { OnOk result (is_bridge (node_in state.old.graph.nodes id) ≡ true → id.0 < length state.old.pending.queues.lists
        → 0 < spare_at state.new.pending.queues.spares id.0) }
    ensures more { (n : ℕ) → spare_at state.old.pending.queues.spares n ≤ spare_at state.new.pending.queues.spares n }
    ensures lists { state.new.pending.queues.lists ≡ state.old.pending.queues.lists }
    ensures tally { state.new.pending.tally ≡ state.old.pending.tally }
    ensures graph { state.new.graph ≡ state.old.graph }
{
    if is_bridge(&state.graph, id) {
        widen(state, id)?;
    }
    Ok(())
}

/// Makes room for an item more at each bridge of a number below `end`.
///
/// # Errors
/// `NoMemory` where memory ran out, and for nothing else; nothing but room changed.
pub fn widen_bridges<B: Node>(state: &mut State<B>, end: u32) -> Result<(), NoMemory>
    ensures stands { (a : RunState) → Stands state.old a → Stands state.new a }
    ensures room { OnOk result ((n : ℕ) → n < end → is_bridge (node_in state.old.graph.nodes (node_id n)) ≡ true
        → n < length state.old.pending.queues.lists → 0 < spare_at state.new.pending.queues.spares n) }
    ensures lists { state.new.pending.queues.lists ≡ state.old.pending.queues.lists }
    ensures tally { state.new.pending.tally ≡ state.old.pending.tally }
    ensures graph { state.new.graph ≡ state.old.graph }
{
    for n in 0..end {
        widen_bridge(state, NodeId(n))?;
    }
    Ok(())
}

// So many seconds are to be known to the node of that number, where it is a bridge.
fn tick_at<B: Node>(state: &mut State<B>, id: NodeId, seconds: u32)
    requires standing { IsStanding state.old }
    requires room { is_bridge (node_in state.old.graph.nodes id) ≡ true → 0 < spare_at state.old.pending.queues.spares id.0 }
    requires numbers { HasNumbers 1 state.old.pending.tally }
    ensures stands { (a : RunState) → Stands state.old a
        → Stands state.new (in_world a (feed_tick a.world seconds id.0 (is_bridge (node_in a.world.nodes id)))) }
    ensures others { (n : ℕ) → id.0 < n → spare_at state.old.pending.queues.spares n ≤ spare_at state.new.pending.queues.spares n }
    ensures graph { state.new.graph ≡ state.old.graph }
    ensures numbers { (k : ℕ) → HasNumbers (k + 1) state.old.pending.tally → HasNumbers k state.new.pending.tally }
{
    if is_bridge(&state.graph, id) {
        let clock = state.pending.tally.clock;
        accept_at(state, id, Body::Tick(seconds), None, clock);
    }
}

/// So many seconds went by: an item waits for each bridge, in order of their numbers, which are below `end`. There is room.
pub fn tick_all<B: Node>(state: &mut State<B>, end: u32, seconds: u32)
    requires standing { IsStanding state.old }
    requires end { length state.old.graph.nodes ≤ end }
    requires room { (n : ℕ) → is_bridge (node_in state.old.graph.nodes (node_id n)) ≡ true → 0 < spare_at state.old.pending.queues.spares n }
    requires numbers { HasNumbers end state.old.pending.tally }
    ensures { (a : RunState) → Stands state.old a → Stands state.new (in_world a (feed_ticks a.world seconds 0 a.world.nodes)) }
{
    for n in 0..end {
        tick_at(state, NodeId(n), seconds);
    }
}
