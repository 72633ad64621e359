// A message of a node's own type that reads.
ghost use Rattle.std.specs.Prelude.{◌≡◌, true, IfErr, IfOk, OnErr, OnOk};
ghost use Rattle.ng_machine.specs.LowRun.{IsLow};
ghost use Rattle.ng_machine.specs.Run.{RunState};
ghost use Rattle.ng_machine.specs.Case.{outcome_of};
ghost use Rattle.ng_machine.specs.World.{NodeRecord, state_of};
ghost use Rattle.ng_core_state.specs.step.Applied.{IsAtNode, applied_from};
ghost use Rattle.ng_topology.specs.Topology.{is_home};
ghost use Rattle.ng_core_state.specs.Stands.{Stands};
ghost use Rattle.ng_core_state.specs.service.Work.{IsOwnAt};

use crate::State;
use crate::service::conclusion::{conclude, is_short, target};
use crate::service::parts::finish;
use crate::service::room::make_room;
use ng_base::NoMemory;
use ng_machine::{Body, Item, Outcome};
use ng_plan::node::Node;
use std::alloc::Global;

// What the node answers.
fn answer_of<B: Node>(alloc: Global, state: &State<B>, item: &Item) -> Result<Outcome, NoMemory>
    requires work { (a : RunState) × (node : NodeRecord) × Stands state.now a × IsAtNode a item.now node × IsOwnAt item.now node }
    requires home { is_home state.now.graph item.now.to ≡ true }
    ensures { IfOk result (λ outcome. (a : RunState) (node : NodeRecord) → Stands state.now a → IsAtNode a item.now node → IsOwnAt item.now node
        → outcome ≡ outcome_of (state_of node) item.now.body) }
{
    match &item.body {
        Body::Msg(msg) => state.graph.node(item.to).answer(alloc, msg),
        _ => unreachable!(),
    }
}

/// Applies a message of the node's own type that reads: its answer goes to the sender, with the message's tag and the flag that
/// says that it is one; where it is refused, the error is told. The node, whose box is at home, stays as it is.
///
/// # Errors
/// The item where memory ran out, and for nothing else; nothing but room changed.
pub fn apply_own<B: Node>(alloc: Global, state: &mut State<B>, item: Item) -> Result<(), Item>
    requires work { (a : RunState) × (node : NodeRecord) × Stands state.old a × IsAtNode a item node × IsLow a.world × IsOwnAt item node }
    requires home { is_home state.old.graph item.to ≡ true }
    ensures applied { OnOk result ((a : RunState) (node : NodeRecord) → Stands state.old a → IsAtNode a item node → IsLow a.world
        → IsOwnAt item node → Stands state.new (applied_from a item)) }
    ensures err { OnErr result ((a : RunState) → Stands state.old a → Stands state.new a) }
    ensures back { IfErr result (λ it. it ≡ item) }
{
    let Ok(mut outcome) = answer_of(alloc, state, &item) else {
        return Err(item);
    };
    if !is_short(&outcome.answer) {
        return Err(item);
    }
    let Ok(()) = make_room(state, item.to, &outcome, target(&item, &outcome)) else {
        return Err(item);
    };
    finish(state, &item);
    conclude(alloc, state, &item, &mut outcome);
    Ok(())
}
