// An item that needs no work outside is applied, by what it brings.
ghost use Rattle.std.specs.Prelude.{◌≡◌, IfOk, IfErr, OnErr};
ghost use Rattle.ng_machine.specs.declared.body.Body.TheVariants.{Msg};
ghost use Rattle.ng_machine.specs.Run.{RunState};
ghost use Rattle.ng_machine.specs.World.{NodeRecord};
ghost use Rattle.ng_message.specs.declared.message.Msg.{Msg as Message};
ghost use Rattle.ng_core_apply.specs.orders.Inside.{Became, IsInside};
ghost use Rattle.ng_core_state.specs.step.Steps.{StandsOn};
ghost use Rattle.ng_core_state.specs.Stands.{MayLeave};

use crate::orders::{
    apply_gone, apply_join, apply_nothing, apply_rebind, apply_settle, apply_undo,
};
use ng_core_state::State;
use ng_machine::{Body, End, Item};
use ng_plan::node::Node;
use std::alloc::Global;

/// What became of an item that needs no work outside.
#[derive(Drop)]
pub enum Inside {
    /// It is applied.
    Done,
    /// Nothing changed: it is an order to shut down or to take a hook away, a peer's going, or a message of the type's own.
    Left(Item),
}

/// A step of a join, or of a node's going between two others, is applied, and so is an item whose hook is gone; a peer's going is
/// left. It is no message.
///
/// # Errors
/// The item itself where memory ran out, and for nothing else; nothing but room changed.
pub fn apply_link<B: Node>(alloc: Global, state: &mut State<B>, item: Item) -> Result<Inside, Item>
    requires work { (a : RunState) × ((node : NodeRecord) × IsInside state.old item a node) }
    requires leaves { MayLeave state.old.graph item }
    requires link { (msg : Message) → item.body ≡ Msg msg → ⊥ }
    ensures became { IfOk result (Became state.old state.new item) }
    ensures err { OnErr result (StandsOn state.old state.new) }
    ensures back { IfErr result (λ it. it ≡ item) }
{
    match &item.body {
        Body::Join2 {
            hook,
            link,
            peer,
            peer_hook,
        } => {
            let to = End {
                node: *peer,
                hook: *peer_hook,
            };
            let (hook, link) = (*hook, *link);
            apply_join(alloc, state, item, hook, link, to)?;
            Ok(Inside::Done)
        }
        Body::Join3 { hook, link } => {
            let (hook, link) = (*hook, *link);
            apply_settle(state, item, hook, link);
            Ok(Inside::Done)
        }
        Body::Undo { hook, link, errno } => {
            let (hook, link, errno) = (*hook, *link, *errno);
            apply_undo(alloc, state, item, hook, link, errno)?;
            Ok(Inside::Done)
        }
        Body::Rebind {
            hook,
            old,
            new,
            peer,
            peer_hook,
        } => {
            let to = End {
                node: *peer,
                hook: *peer_hook,
            };
            let (hook, old, new) = (*hook, *old, *new);
            apply_rebind(state, item, hook, old, new, to);
            Ok(Inside::Done)
        }
        Body::Frame { .. } => {
            apply_gone(state, item);
            Ok(Inside::Done)
        }
        Body::Learn { .. } => {
            apply_nothing(state, item);
            Ok(Inside::Done)
        }
        Body::Leave { .. } => Ok(Inside::Left(item)),
        Body::Tick(_) => Ok(Inside::Left(item)),
        Body::Msg(_) => unreachable!(),
    }
}
