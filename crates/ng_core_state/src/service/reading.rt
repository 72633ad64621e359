// A packet at a kind that reads.
ghost use Rattle.std.specs.Prelude.{◌≡◌, ◌+◌, ◌<◌, true, length, vec_len, vec_capacity, IfErr, OnErr, OnOk};
ghost use Rattle.ng_machine.specs.LowRun.{IsLow};
ghost use Rattle.ng_machine.specs.Run.{RunState};
ghost use Rattle.ng_machine.specs.World.{NodeRecord};
ghost use Rattle.ng_queue.specs.pending.Holds.{done_from};
ghost use Rattle.ng_core_state.specs.step.Applied.{IsAtNode, applied_from};
ghost use Rattle.ng_queue.specs.tally.Tally.{HasNumbers};
ghost use Rattle.ng_topology.specs.Topology.{is_home};
ghost use Rattle.ng_core_state.specs.Stands.{Stands};
ghost use Rattle.ng_core_state.specs.service.Followers.{is_short, one_at, target_by};
ghost use Rattle.ng_core_state.specs.service.Front.{HasFront};
ghost use Rattle.ng_core_state.specs.service.Room.{HasRoomToLeave};
ghost use Rattle.ng_core_state.specs.service.Work.{IsReadAt};

use crate::State;
use crate::service::conclusion::{conclude, is_short, target};
use crate::service::parts::{absorb, finish, reuse};
use crate::service::room::make_room;
use ng_machine::{Item, Outcome};
use ng_plan::node::Node;
use ng_queue::BoxedItem;
use std::alloc::Global;

/// What a plan made of a packet comes about, once the packet is done. There is room for it.
pub(super) fn bring_about<B: Node>(
    alloc: Global,
    state: &mut State<B>,
    item: &Item,
    outcome: &mut Outcome,
)
    requires work { (a : RunState) × (node : NodeRecord) × Stands state.old (done_from a item.now) × IsAtNode a item.now node × IsReadAt item.now node outcome.old }
    requires home { is_home state.old.graph item.now.to ≡ true }
    requires short { is_short outcome.old.answer ≡ true }
    requires leaving { HasRoomToLeave item.now.to (length outcome.old.leaves) state.old }
    requires told { vec_len state.old.told < vec_capacity state.old.told }
    requires room { HasFront 0 state.old.graph item.now.to (one_at (target_by item.now.to item.now.body outcome.old.learn outcome.old.answer))
        outcome.old.sends state.old.pending }
    requires numbers { HasNumbers (length outcome.old.leaves + (length outcome.old.sends + 2)) state.old.pending.tally }
    ensures { (a : RunState) (node : NodeRecord) → Stands state.old (done_from a item.now) → IsAtNode a item.now node
        → IsReadAt item.now node outcome.old → Stands state.new (applied_from a item.now) }
{
    absorb(state, item.to, &outcome.counts);
    conclude(alloc, state, item, outcome);
}

// The packet is applied as by the call below, and stays with the caller.
fn apply_read_item<B: Node>(
    alloc: Global,
    state: &mut State<B>,
    item: &Item,
    mut outcome: Outcome,
) -> Result<(), Outcome>
    requires work { (a : RunState) × (node : NodeRecord) × Stands state.old a × IsAtNode a item.now node × IsLow a.world × IsReadAt item.now node outcome }
    requires home { is_home state.old.graph item.now.to ≡ true }
    ensures applied { OnOk result ((a : RunState) (node : NodeRecord) → Stands state.old a → IsAtNode a item.now node → IsLow a.world
        → IsReadAt item.now node outcome → Stands state.new (applied_from a item.now)) }
    ensures err { OnErr result ((a : RunState) → Stands state.old a → Stands state.new a) }
    ensures back { IfErr result (λ it. it ≡ outcome) }
{
    if !is_short(&outcome.answer) {
        return Err(outcome);
    }
    let Ok(()) = make_room(state, item.to, &outcome, target(item, &outcome)) else {
        return Err(outcome);
    };
    finish(state, item);
    bring_about(alloc, state, item, &mut outcome);
    Ok(())
}

/// Applies a packet of a kind that reads: what its plan made of it comes about. Its node's box is at home.
///
/// # Errors
/// The item and the outcome where memory ran out, and for nothing else; nothing but room changed.
pub fn apply_read<B: Node>(
    alloc: Global,
    state: &mut State<B>,
    item: BoxedItem,
    outcome: Outcome,
) -> Result<(), (BoxedItem, Outcome)>
    requires work { (a : RunState) × (node : NodeRecord) × Stands state.old a × IsAtNode a item node × IsLow a.world × IsReadAt item node outcome }
    requires home { is_home state.old.graph item.to ≡ true }
    ensures applied { OnOk result ((a : RunState) (node : NodeRecord) → Stands state.old a → IsAtNode a item node → IsLow a.world
        → IsReadAt item node outcome → Stands state.new (applied_from a item)) }
    ensures err { OnErr result ((a : RunState) → Stands state.old a → Stands state.new a) }
    ensures back { IfErr result (λ it. it ≡ (item, outcome)) }
{
    match apply_read_item(alloc, state, &item, outcome) {
        Ok(()) => {
            reuse(state, item);
            Ok(())
        }
        Err(outcome) => Err((item, outcome)),
    }
}
