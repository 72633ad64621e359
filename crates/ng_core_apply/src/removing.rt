// What takes a node or a hook away, and messages of the type's own.
ghost use Rattle.std.specs.Prelude.{◌≡◌, true, Ok, IfOk, IfErr, OnErr};
ghost use Rattle.ng_core_apply.specs.AtHand.{Applies, IsWithin, going_order};
ghost use Rattle.ng_machine.specs.asking.Orders.{read_as};
ghost use Rattle.ng_machine.specs.Run.{RunState};
ghost use Rattle.ng_machine.specs.World.{NodeRecord, kind_at};
ghost use Rattle.ng_core_apply.specs.orders.Classes.{obeys};
ghost use Rattle.ng_core_apply.specs.orders.Inside.{is_left, removes_as_read};
ghost use Rattle.ng_core_state.specs.step.Steps.{StandsOn};
ghost use Rattle.ng_core_apply.specs.removal.Removals.{MayRemove, Removes};
ghost use Rattle.ng_topology.specs.Topology.{IsAtHome};

use crate::removal::{apply_leave, apply_rmhook, apply_shutdown};
use ng_base::{Errno, Name, NodeId};
use ng_core_state::State;
use ng_core_state::service::apply_own;
use ng_machine::asking::{Order, read_order};
use ng_machine::{Body, Item};
use ng_message::{GENERIC_COOKIE, Header, Msg};
use ng_plan::node::Node;
use std::alloc::Global;

// The hook that an order takes away, and none where it shuts a node down.
fn removed_hook(read: &Result<Order, Errno>) -> Option<Name>
    ensures { removes_as_read (read_as read.now) ≡ true → read_as read.now ≡ Ok (going_order result) }
{
    match read {
        Ok(Order::Rmhook(hook)) => Some(*hook),
        _ => None,
    }
}

// The order to take a hook away, or to shut down, of a message of this sender and this header: the box of a node that goes.
fn apply_removal<B: Node>(
    alloc: Global,
    state: &mut State<B>,
    item: Item,
    sender: NodeId,
    header: Header,
    hook: Option<Name>,
) -> Result<Option<B>, Item>
    requires work { MayRemove state.old item (obeys item sender header (Ok (going_order hook))) }
    requires home { IsAtHome state.old.graph item.to }
    ensures applied { IfOk result (Removes B.state state.old state.new item (obeys item sender header (Ok (going_order hook)))) }
    ensures err { OnErr result (StandsOn state.old state.new) }
    ensures back { IfErr result (λ it. it ≡ item) }
{
    match hook {
        Some(hook) => apply_rmhook(alloc, state, item, hook),
        None => apply_shutdown(alloc, state, item),
    }
}

// A message that is left is applied: the box of a node that goes.
fn apply_message<B: Node>(
    alloc: Global,
    state: &mut State<B>,
    item: Item,
) -> Result<Option<B>, Item>
    requires work { (a : RunState) × ((node : NodeRecord) × IsWithin state.old item a node) }
    requires left { (a : RunState) (node : NodeRecord) → IsWithin state.old item a node → is_left (kind_at node) item.body ≡ true }
    requires message { (msg : Msg) × (item.body ≡ Body.Msg msg) }
    ensures applied { IfOk result (λ out. (a : RunState) (node : NodeRecord) → IsWithin state.old item a node → Applies B.state state.new item a node out) }
    ensures err { OnErr result (StandsOn state.old state.new) }
    ensures back { IfErr result (λ it. it ≡ item) }
{
    let Body::Msg(msg) = &item.body else {
        unreachable!()
    };
    if msg.header.typecookie == GENERIC_COOKIE {
        let (sender, header) = (msg.from, msg.header);
        let hook = removed_hook(&read_order(msg));
        return apply_removal(alloc, state, item, sender, header, hook);
    }
    apply_own(alloc, state, item)?;
    Ok(None)
}

/// An item that is left is applied: the box of a node that goes.
///
/// # Errors
/// The item itself where memory ran out, and for nothing else; nothing but room changed.
pub fn apply_left<B: Node>(
    alloc: Global,
    state: &mut State<B>,
    item: Item,
) -> Result<Option<B>, Item>
    requires work { (a : RunState) × ((node : NodeRecord) × IsWithin state.old item a node) }
    requires left { (a : RunState) (node : NodeRecord) → IsWithin state.old item a node → is_left (kind_at node) item.body ≡ true }
    ensures applied { IfOk result (λ out. (a : RunState) (node : NodeRecord) → IsWithin state.old item a node → Applies B.state state.new item a node out) }
    ensures err { OnErr result (StandsOn state.old state.new) }
    ensures back { IfErr result (λ it. it ≡ item) }
{
    match &item.body {
        Body::Leave { hook, link } => {
            let (hook, link) = (*hook, *link);
            apply_leave(alloc, state, item, hook, link)
        }
        Body::Msg(_) => apply_message(alloc, state, item),
        _ => unreachable!(),
    }
}
