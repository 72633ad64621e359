// The steps of a join that no order makes: the second, at the other end, and the third or its undoing, at the first; and a hook
// that gets another peer.
ghost use Rattle.std.specs.Prelude.{◌≡◌, OnOk, OnErr, IfErr};
ghost use Rattle.ng_core_apply.specs.orders.Orders.{joins, settles, undoes, rebinds};
ghost use Rattle.ng_core_state.specs.step.Steps.{MayStep, StandsOn, Steps};
ghost use Rattle.ng_topology.specs.Topology.{IsAtHome};

use ng_base::{Errno, LinkId, Name};
use ng_core_state::State;
use ng_core_state::step::{
    add_joined, finish, finish_accepted, leave_end, rebind_end, refuse, settle_end, widen,
    widen_told,
};
use ng_machine::{Body, End, Item};
use ng_plan::node::Node;
use std::alloc::Global;

/// The second step of a connect, at the other node: its hook is made and joined, and the third step is accepted at the first
/// end; or the hook is refused, and the first end is to go again.
///
/// # Errors
/// The item itself where memory ran out, and for nothing else; nothing but room changed.
pub fn apply_join<B: Node>(
    alloc: Global,
    state: &mut State<B>,
    item: Item,
    hook: Name,
    link: LinkId,
    to: End,
) -> Result<(), Item>
    requires work { MayStep state.old item (joins item hook link to) }
    requires home { IsAtHome state.old.graph item.to }
    ensures applied { OnOk result (Steps state.old state.new item (joins item hook link to)) }
    ensures err { OnErr result (StandsOn state.old state.new) }
    ensures back { IfErr result (λ it. it ≡ item) }
{
    if widen(state, to.node).is_err() {
        return Err(item);
    }
    if let Err(errno) = state.graph.may(item.to, &hook) {
        let body = Body::Undo {
            hook: to.hook,
            link,
            errno,
        };
        finish_accepted(state, &item, to.node, body);
        return Ok(());
    }
    let at = End {
        node: item.to,
        hook,
    };
    if add_joined(alloc, state, &at, link, &to).is_err() {
        return Err(item);
    }
    let body = Body::Join3 {
        hook: to.hook,
        link,
    };
    finish_accepted(state, &item, to.node, body);
    Ok(())
}

/// The third step of a connect: our hook is joined, where it is there with that link.
pub fn apply_settle<B: Node>(state: &mut State<B>, item: Item, hook: Name, link: LinkId)
    requires work { MayStep state.old item (settles hook link) }
    requires home { IsAtHome state.old.graph item.to }
    ensures { Steps state.old state.new item (settles hook link) }
{
    finish(state, &item);
    let at = End {
        node: item.to,
        hook,
    };
    settle_end(state, &at, link);
}

/// Or our hook goes, where it is there with that link, and the error is told; a node whose last hook goes so stays.
///
/// # Errors
/// The item itself where memory ran out, and for nothing else; nothing but room changed.
pub fn apply_undo<B: Node>(
    alloc: Global,
    state: &mut State<B>,
    item: Item,
    hook: Name,
    link: LinkId,
    errno: Errno,
) -> Result<(), Item>
    requires work { MayStep state.old item (undoes item hook link errno) }
    requires home { IsAtHome state.old.graph item.to }
    ensures applied { OnOk result (Steps state.old state.new item (undoes item hook link errno)) }
    ensures err { OnErr result (StandsOn state.old state.new) }
    ensures back { IfErr result (λ it. it ≡ item) }
{
    if widen_told(state, 1).is_err() {
        return Err(item);
    }
    finish(state, &item);
    let at = End {
        node: item.to,
        hook,
    };
    if !leave_end(state, &at, link) {
        return Ok(());
    }
    refuse(state, alloc, item.tag, errno);
    Ok(())
}

/// A hook gets another link and another peer, where it is there with the old link, since the node between them went.
pub fn apply_rebind<B: Node>(
    state: &mut State<B>,
    item: Item,
    hook: Name,
    old: LinkId,
    new: LinkId,
    to: End,
)
    requires work { MayStep state.old item (rebinds hook old new to) }
    requires home { IsAtHome state.old.graph item.to }
    ensures { Steps state.old state.new item (rebinds hook old new to) }
{
    finish(state, &item);
    let at = End {
        node: item.to,
        hook,
    };
    rebind_end(state, &at, old, new, &to);
}
