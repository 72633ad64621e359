// The order to connect two hooks: its first step, at the node that gets it.
ghost use Rattle.std.specs.Prelude.{◌≡◌, OnOk, OnErr, IfErr};
ghost use Rattle.ng_machine.specs.World.{World};
ghost use Rattle.ng_core_apply.specs.orders.Orders.{connects, connects_to, begins};
ghost use Rattle.ng_core_state.specs.step.Steps.{MayStep, StandsOn, Steps};
ghost use Rattle.ng_core_apply.specs.orders.Found.{found_by};
ghost use Rattle.ng_path.specs.Address.{read_address};
ghost use Rattle.ng_topology.specs.Topology.{IsAtHome, MayGetHook};

use crate::orders::apply_refusal;
use ng_base::{Errno, Name, NodeId};
use ng_core_state::State;
use ng_core_state::step::{add_half, finish_accepted, widen};
use ng_machine::{Body, End, Item};
use ng_path::{read_path, reads_address};
use ng_plan::node::Node;
use ng_topology::Graph;
use std::alloc::Global;

// The node that these bytes lead to, from a node.
fn find<B: Node>(graph: &Graph<B>, from: NodeId, address: &[u8]) -> Result<NodeId, Errno>
    ensures { (w : World) → w.nodes ≡ graph.now.nodes → result ≡ found_by w from (read_address address.now) }
{
    reads_address();
    let Ok(path) = read_path(address) else {
        return Err(Errno::INVAL);
    };
    match graph.walk(from, &path) {
        Some(id) => Ok(id),
        None => Err(Errno::NOENT),
    }
}

// The first step of a connect to a node that the address leads to, where our hook may be made.
fn begin<B: Node>(
    alloc: Global,
    state: &mut State<B>,
    item: Item,
    hook: &Name,
    to: &End,
) -> Result<(), Item>
    requires work { MayStep state.old item (begins item hook.now to.now) }
    requires home { IsAtHome state.old.graph item.to }
    requires may { MayGetHook state.old.graph (record { node = item.to; hook = hook.now }) }
    ensures applied { OnOk result (Steps state.old state.new item (begins item hook.now to.now)) }
    ensures err { OnErr result (StandsOn state.old state.new) }
    ensures back { IfErr result (λ it. it ≡ item) }
{
    if widen(state, to.node).is_err() {
        return Err(item);
    }
    let at = End {
        node: item.to,
        hook: *hook,
    };
    let Ok(link) = add_half(alloc, state, &at, to) else {
        return Err(item);
    };
    let body = Body::Join2 {
        hook: to.hook,
        link,
        peer: item.to,
        peer_hook: *hook,
    };
    finish_accepted(state, &item, to.node, body);
    Ok(())
}

// Or our hook is refused.
fn begin_unless<B: Node>(
    alloc: Global,
    state: &mut State<B>,
    item: Item,
    hook: &Name,
    to: &End,
) -> Result<(), Item>
    requires work { MayStep state.old item (connects_to item hook.now to.now) }
    requires home { IsAtHome state.old.graph item.to }
    ensures applied { OnOk result (Steps state.old state.new item (connects_to item hook.now to.now)) }
    ensures err { OnErr result (StandsOn state.old state.new) }
    ensures back { IfErr result (λ it. it ≡ item) }
{
    match state.graph.may(item.to, hook) {
        Err(errno) => apply_refusal(alloc, state, item, errno),
        Ok(()) => begin(alloc, state, item, hook, to),
    }
}

/// The order to connect a new hook of the item's node to a new hook of the node at an address: our hook is made by a fresh
/// link and not joined yet, and the other node is asked for its end. Refused are, in this order: an address that can't be read,
/// with `EINVAL`; one that leads nowhere, with `ENOENT`; a hook that is there, with `EEXIST`; one whose name the type doesn't
/// take, with `EINVAL`.
///
/// # Errors
/// The item itself where memory ran out, and for nothing else; nothing but room changed.
pub fn apply_connect<B: Node>(
    alloc: Global,
    state: &mut State<B>,
    item: Item,
    address: &[u8],
    ours: &Name,
    theirs: &Name,
) -> Result<(), Item>
    requires work { MayStep state.old item (connects item address.now ours.now theirs.now) }
    requires home { IsAtHome state.old.graph item.to }
    ensures applied { OnOk result (Steps state.old state.new item (connects item address.now ours.now theirs.now)) }
    ensures err { OnErr result (StandsOn state.old state.new) }
    ensures back { IfErr result (λ it. it ≡ item) }
{
    match find(&state.graph, item.to, address) {
        Err(errno) => apply_refusal(alloc, state, item, errno),
        Ok(peer) => {
            let to = End {
                node: peer,
                hook: *theirs,
            };
            begin_unless(alloc, state, item, ours, &to)
        }
    }
}
