// A writer that a node's box worked on.
ghost use Rattle.std.specs.Prelude.{◌≡◌, IfErr, OnErr, OnOk};
ghost use Rattle.ng_machine.specs.LowRun.{IsLow};
ghost use Rattle.ng_machine.specs.Run.{RunState};
ghost use Rattle.ng_machine.specs.World.{NodeRecord};
ghost use Rattle.ng_core_state.specs.step.Applied.{IsAtNode, applied_from};
ghost use Rattle.ng_core_state.specs.Stands.{Stands};
ghost use Rattle.ng_core_state.specs.service.Work.{IsWrittenAt};

use crate::State;
use crate::service::conclusion::{conclude, is_short, target};
use crate::service::parts::{bring_home, finish, reuse};
use crate::service::room::make_room;
use ng_machine::{Item, Outcome};
use ng_plan::node::Node;
use ng_queue::BoxedItem;
use std::alloc::Global;

// The writer is applied as by the call below, and stays with the caller.
fn apply_write_item<B: Node>(
    alloc: Global,
    state: &mut State<B>,
    item: &Item,
    node: B,
    mut outcome: Outcome,
) -> Result<(), (B, Outcome)>
    requires work { (a : RunState) × (was : NodeRecord) × Stands state.old a × IsAtNode a item.now was × IsLow a.world
        × IsWrittenAt item.now was (B.state node) outcome }
    ensures applied { OnOk result ((a : RunState) (was : NodeRecord) → Stands state.old a → IsAtNode a item.now was → IsLow a.world
        → IsWrittenAt item.now was (B.state node) outcome → Stands state.new (applied_from a item.now)) }
    ensures err { OnErr result ((a : RunState) → Stands state.old a → Stands state.new a) }
    ensures back { IfErr result (λ it. it ≡ (node, outcome)) }
{
    if !is_short(&outcome.answer) {
        return Err((node, outcome));
    }
    let Ok(()) = make_room(state, item.to, &outcome, target(item, &outcome)) else {
        return Err((node, outcome));
    };
    bring_home(state, item.to, node);
    finish(state, item);
    conclude(alloc, state, item, &mut outcome);
    Ok(())
}

/// Applies a writer that the node's box worked on: the box comes home, and what the outcome says comes about. A message of the
/// type that is refused is told and changes nothing.
///
/// # Errors
/// The item, the box and the outcome where memory ran out, and for nothing else; nothing but room changed.
pub fn apply_write<B: Node>(
    alloc: Global,
    state: &mut State<B>,
    item: BoxedItem,
    node: B,
    outcome: Outcome,
) -> Result<(), (BoxedItem, B, Outcome)>
    requires work { (a : RunState) × (was : NodeRecord) × Stands state.old a × IsAtNode a item was × IsLow a.world
        × IsWrittenAt item was (B.state node) outcome }
    ensures applied { OnOk result ((a : RunState) (was : NodeRecord) → Stands state.old a → IsAtNode a item was → IsLow a.world
        → IsWrittenAt item was (B.state node) outcome → Stands state.new (applied_from a item)) }
    ensures err { OnErr result ((a : RunState) → Stands state.old a → Stands state.new a) }
    ensures back { IfErr result (λ it. it ≡ (item, node, outcome)) }
{
    match apply_write_item(alloc, state, &item, node, outcome) {
        Ok(()) => {
            reuse(state, item);
            Ok(())
        }
        Err((node, outcome)) => Err((item, node, outcome)),
    }
}
