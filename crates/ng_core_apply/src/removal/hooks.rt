// A hook goes, and with the last hook of a node that doesn't last the node.
ghost use Rattle.std.specs.Prelude.{◌≡◌, IfOk, IfErr, OnErr, None};
ghost use Rattle.ng_machine.specs.Run.{RunState};
ghost use Rattle.ng_core_state.specs.step.Steps.{StandsOn};
ghost use Rattle.ng_core_apply.specs.removal.Removals.{MayRemove, Removes, leaves, removes_hook};
ghost use Rattle.ng_topology.specs.Topology.{IsAtHome};

use crate::removal::ends::{ask_peer, hook_of, stays_without};
use crate::removal::retiring::remove;
use crate::removal::room::widen_for_drops;
use ng_base::{Errno, LinkId, Name};
use ng_core_state::State;
use ng_core_state::step::{finish, leave_end, refuse, widen, widen_told};
use ng_machine::{End, Item};
use ng_plan::node::Node;
use std::alloc::Global;

/// A hook goes, where it is there with that link, since its peer went; and with a node's last hook goes the node, unless it lasts:
/// its box.
///
/// # Errors
/// The item itself where memory ran out, and for nothing else; nothing but room changed.
pub fn apply_leave<B: Node>(
    alloc: Global,
    state: &mut State<B>,
    item: Item,
    hook: Name,
    link: LinkId,
) -> Result<Option<B>, Item>
    requires work { MayRemove state.old item (leaves item hook link) }
    requires home { IsAtHome state.old.graph item.to }
    ensures applied { IfOk result (Removes B.state state.old state.new item (leaves item hook link)) }
    ensures err { OnErr result (StandsOn state.old state.new) }
    ensures back { IfErr result (λ it. it ≡ item) }
{
    let at = End {
        node: item.to,
        hook,
    };
    if !state.graph.has_link(item.to, &hook, link) {
        finish(state, &item);
        return Ok(None);
    }
    if stays_without(state, item.to, &hook) {
        finish(state, &item);
        leave_end(state, &at, link);
        return Ok(None);
    }
    if widen_for_drops(state, item.to).is_err() {
        return Err(item);
    }
    finish(state, &item);
    let node = remove(alloc, state, item.to, item.stamp);
    Ok(Some(node))
}

/// The order to take a hook away: an error is told where it isn't there; or it goes at once, and its peer is to take its end
/// away; and with a node's last hook goes the node, unless it lasts: its box.
///
/// # Errors
/// The item itself where memory ran out, and for nothing else; nothing but room changed.
pub fn apply_rmhook<B: Node>(
    alloc: Global,
    state: &mut State<B>,
    item: Item,
    hook: Name,
) -> Result<Option<B>, Item>
    requires work { MayRemove state.old item (removes_hook item hook) }
    requires home { IsAtHome state.old.graph item.to }
    ensures applied { IfOk result (Removes B.state state.old state.new item (removes_hook item hook)) }
    ensures err { OnErr result (StandsOn state.old state.new) }
    ensures back { IfErr result (λ it. it ≡ item) }
{
    let Some(end) = hook_of(state, item.to, &hook) else {
        if widen_told(state, 1).is_err() {
            return Err(item);
        }
        finish(state, &item);
        refuse(state, alloc, item.tag, Errno::NOENT);
        return Ok(None);
    };
    if widen(state, end.peer.node).is_err() {
        return Err(item);
    }
    if stays_without(state, item.to, &hook) {
        ask_peer(state, &item, &end);
        let at = End {
            node: item.to,
            hook,
        };
        leave_end(state, &at, end.link);
        return Ok(None);
    }
    if widen_for_drops(state, item.to).is_err() {
        return Err(item);
    }
    ask_peer(state, &item, &end);
    let node = remove(alloc, state, item.to, item.stamp);
    Ok(Some(node))
}
