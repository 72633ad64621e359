// A node goes and leaves the peers of two of its hooks joined to each other.
ghost use Rattle.std.specs.Prelude.{◌≡◌, ℕ, ◌+◌, ◌<◌, ◌≤◌, ◌==◌, ◌||◌, not, false, length, OnOk, IfOk, IfErr, OnErr, Some};
ghost use Rattle.ng_machine.specs.declared.body.Body.TheVariants.{Rebind};
ghost use Rattle.ng_machine.specs.declared.farewell.Farewell.TheVariants.{Bypass};
ghost use Rattle.ng_machine.specs.Change.{Accepts, change};
ghost use Rattle.ng_machine.specs.Retire.{hooks_but, outward};
ghost use Rattle.ng_machine.specs.Run.{RunState};
ghost use Rattle.ng_machine.specs.World.{NodeRecord, World, hook_of, is_named, link_id, node_in};
ghost use Rattle.ng_core_state.specs.step.Changed.{with_link};
ghost use Rattle.ng_core_state.specs.step.Steps.{StandsOn};
ghost use Rattle.ng_queue.specs.pending.Room.{Spends};
ghost use Rattle.ng_core_apply.specs.removal.Drops.{HasRoomThere};
ghost use Rattle.ng_queue.specs.pending.Holds.{in_world};
ghost use Rattle.ng_queue.specs.Queues.{spare_at};
ghost use Rattle.ng_core_apply.specs.removal.Removals.{MayRemove, Removes, bypasses, bids_farewell, world_bypassed};
ghost use Rattle.ng_queue.specs.tally.Tally.{HasNumbers};
ghost use Rattle.ng_queue.specs.tie.TieLaws.{one};
ghost use Rattle.ng_topology.specs.Topology.{IsAtHome, IsThere, use_link};
ghost use Rattle.ng_core_state.specs.Stands.{IsStanding, Stands};

use crate::removal::ends::hook_of;
use crate::removal::going::apply_going;
use crate::removal::peers::{ask_peers, hooks_of, widen_peers};
use crate::removal::retiring::remove;
use crate::removal::room::widen_for_drops;
use ng_base::{LinkId, Name, NoMemory, NodeId};
use ng_core_state::State;
use ng_core_state::step::{accept_at, finish, widen};
use ng_machine::{Body, Hook, Item};
use ng_plan::node::Node;
use std::alloc::Global;

// The hook of that name, where it is joined to another node that is there.
fn outward<B: Node>(state: &State<B>, at: NodeId, name: &Name) -> Option<Hook>
    ensures { (w : World) (node : NodeRecord) → w.nodes ≡ state.now.graph.nodes → node_in state.now.graph.nodes at ≡ Some node → result ≡ outward w at (hook_of node name.now) }
{
    let Some(hook) = hook_of(state, at, name) else {
        return None;
    };
    if hook.joined && hook.peer.node.0 != at.0 && state.graph.kind(hook.peer.node).is_some() {
        Some(hook)
    } else {
        None
    }
}

fn is_other(hook: &Hook, one: &Name, other: &Name) -> bool
    ensures { result ≡ not (is_named one.now hook.now || is_named other.now hook.now) }
{
    !(hook.name == *one || hook.name == *other)
}

// The hooks of other names.
fn hooks_but<B: Node>(
    alloc: Global,
    state: &State<B>,
    id: NodeId,
    one: &Name,
    other: &Name,
) -> Result<Vec<Hook>, NoMemory>
    requires { IsThere state.now.graph id }
    ensures { IfOk result (λ hooks. (node : NodeRecord) → node_in state.now.graph.nodes id ≡ Some node → hooks.items ≡ hooks_but one.now other.now node.hooks) }
{
    let mut hooks = hooks_of(alloc, state, id)?;
    hooks.retain(|hook| is_other(hook, one, other));
    Ok(hooks)
}

// The number of a link is used.
fn fresh_link<B: Node>(state: &mut State<B>) -> LinkId
    requires { state.old.graph.next_link < 4000000000 }
    ensures link { result ≡ link_id state.old.graph.next_link }
    ensures stands { (a : RunState) → Stands state.old a → Stands state.new (in_world a (with_link a.world)) }
    ensures graph { state.new.graph ≡ use_link state.old.graph }
    ensures pending { state.new.pending ≡ state.old.pending }
    ensures told { state.new.told ≡ state.old.told }
{
    state.graph.fresh_link()
}

// The peer of one hook gets the peer of another, by a new link; there is room for that.
fn rebind<B: Node>(state: &mut State<B>, item: &Item, from: &Hook, link: LinkId, to: &Hook)
    requires standing { IsStanding state.old }
    requires room { (node : NodeRecord) → node_in state.old.graph.nodes from.now.peer.node ≡ Some node → 0 < spare_at state.old.pending.queues.spares from.now.peer.node.0 }
    requires numbers { HasNumbers 1 state.old.pending.tally }
    ensures stands { (a : RunState) → Stands state.old a → Stands state.new (in_world a (change item.now.to item.now.stamp a.world
        (Accepts from.now.peer.node (Rebind from.now.peer.hook from.now.link link to.now.peer.node to.now.peer.hook) item.now.tag))) }
    ensures spares { Spends (λ n. one (n == from.now.peer.node.0)) state.old.pending state.new.pending }
    ensures lists { length state.new.pending.queues.lists ≡ length state.old.pending.queues.lists }
    ensures graph { state.new.graph ≡ state.old.graph }
    ensures told { state.new.told ≡ state.old.told }
    ensures numbers { (k : ℕ) → HasNumbers (k + 1) state.old.pending.tally → HasNumbers k state.new.pending.tally }
{
    let body = Body::Rebind {
        hook: from.peer.hook,
        old: from.link,
        new: link,
        peer: to.peer.node,
        peer_hook: to.peer.hook,
    };
    accept_at(state, from.peer.node, body, item.tag, item.stamp);
}

// Room for an item more at the peer of each of two hooks.
fn widen_both<B: Node>(state: &mut State<B>, first: &Hook, second: &Hook) -> Result<(), NoMemory>
    ensures stands { (a : RunState) → Stands state.old a → Stands state.new a }
    ensures room { OnOk result ((m : ℕ) → m < length state.old.pending.queues.lists
        → spare_at state.old.pending.queues.spares m + (one (m == first.now.peer.node.0) + one (m == second.now.peer.node.0)) ≤ spare_at state.new.pending.queues.spares m) }
    ensures lists { state.new.pending.queues.lists ≡ state.old.pending.queues.lists }
    ensures tally { state.new.pending.tally ≡ state.old.pending.tally }
    ensures graph { state.new.graph ≡ state.old.graph }
    ensures told { state.new.told ≡ state.old.told }
{
    widen(state, first.peer.node)?;
    widen(state, second.peer.node)
}

// The peers of two hooks are joined to each other by a new link; there is room for that.
fn rebind_both<B: Node>(state: &mut State<B>, item: &Item, first: &Hook, second: &Hook)
    requires standing { IsStanding state.old }
    requires links { state.old.graph.next_link < 4000000000 }
    requires room { HasRoomThere (λ m. one (m == first.now.peer.node.0) + one (m == second.now.peer.node.0)) state.old }
    requires numbers { HasNumbers 2 state.old.pending.tally }
    ensures stands { (a : RunState) → Stands state.old a → Stands state.new (in_world a (world_bypassed item.now first.now second.now a.world)) }
    ensures spares { (m : ℕ) → spare_at state.old.pending.queues.spares m
        ≤ spare_at state.new.pending.queues.spares m + (one (m == first.now.peer.node.0) + one (m == second.now.peer.node.0)) }
    ensures lists { length state.new.pending.queues.lists ≡ length state.old.pending.queues.lists }
    ensures graph { state.new.graph ≡ use_link state.old.graph }
    ensures told { state.new.told ≡ state.old.told }
    ensures numbers { (k : ℕ) → HasNumbers (k + 2) state.old.pending.tally → HasNumbers k state.new.pending.tally }
{
    let link = fresh_link(state);
    rebind(state, item, first, link, second);
    rebind(state, item, second, link, first);
}

// A node goes, and the peers of two of its hooks, which are at other nodes, are joined to each other by a new link; each peer
// of another hook at another node is to take its end away: the node's box. An item comes back where memory ran out, and for
// nothing else; nothing but room changed.
fn apply_bypass<B: Node>(
    alloc: Global,
    state: &mut State<B>,
    item: Item,
    names: &(Name, Name),
    first: Hook,
    second: Hook,
) -> Result<Option<B>, Item>
    requires work { MayRemove state.old item (bypasses item names.now.0 names.now.1 first second) }
    requires home { IsAtHome state.old.graph item.to }
    requires away { ((first.peer.node.0 == item.to.0) ≡ false) × ((second.peer.node.0 == item.to.0) ≡ false) }
    ensures applied { IfOk result (Removes B.state state.old state.new item (bypasses item names.now.0 names.now.1 first second)) }
    ensures err { OnErr result (StandsOn state.old state.new) }
    ensures back { IfErr result (λ it. it ≡ item) }
{
    state.graph.soundness();
    let Ok(hooks) = hooks_but(alloc, state, item.to, &names.0, &names.1) else {
        return Err(item);
    };
    if widen_peers(state, hooks.as_slice()).is_err() {
        return Err(item);
    }
    if widen_both(state, &first, &second).is_err() {
        return Err(item);
    }
    if widen_for_drops(state, item.to).is_err() {
        return Err(item);
    }
    finish(state, &item);
    rebind_both(state, &item, &first, &second);
    ask_peers(state, item.to, item.stamp, hooks);
    let node = remove(alloc, state, item.to, item.stamp);
    Ok(Some(node))
}

/// A node goes, and where the hooks of two names are joined to other nodes that are there, their peers are joined to each other;
/// each peer of another hook at another node is to take its end away: the node's box.
///
/// # Errors
/// The item itself where memory ran out, and for nothing else; nothing but room changed.
pub fn apply_parting<B: Node>(
    alloc: Global,
    state: &mut State<B>,
    item: Item,
    names: &(Name, Name),
) -> Result<Option<B>, Item>
    requires work { MayRemove state.old item (bids_farewell item (Bypass names.now.0 names.now.1)) }
    requires home { IsAtHome state.old.graph item.to }
    ensures applied { IfOk result (Removes B.state state.old state.new item (bids_farewell item (Bypass names.now.0 names.now.1))) }
    ensures err { OnErr result (StandsOn state.old state.new) }
    ensures back { IfErr result (λ it. it ≡ item) }
{
    let Some(first) = outward(state, item.to, &names.0) else {
        return apply_going(alloc, state, item);
    };
    let Some(second) = outward(state, item.to, &names.1) else {
        return apply_going(alloc, state, item);
    };
    apply_bypass(alloc, state, item, names, first, second)
}
