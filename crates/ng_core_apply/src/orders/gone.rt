// Items that change nothing: a packet whose hook is gone, and what is to be learned by one.
ghost use Rattle.ng_machine.specs.Run.{RunState};
ghost use Rattle.ng_machine.specs.World.{NodeRecord};
ghost use Rattle.ng_core_apply.specs.orders.Orders.{changes_nothing};
ghost use Rattle.ng_core_state.specs.step.Steps.{IsGone, MayStep, Steps};
ghost use Rattle.ng_core_state.specs.step.Applied.{applied_from};
ghost use Rattle.ng_core_state.specs.Stands.{MayLeave, Stands};

use ng_core_state::State;
use ng_core_state::step::{drop_for_hook, finish};
use ng_machine::Item;
use ng_plan::node::Node;

/// A packet is dropped whose hook isn't there or has another link by now.
pub fn apply_gone<B: Node>(state: &mut State<B>, item: Item)
    requires work { (a : RunState) × ((node : NodeRecord) × IsGone state.old item a node) }
    requires leaves { MayLeave state.old.graph item }
    ensures { (a : RunState) (node : NodeRecord) → IsGone state.old item a node → Stands state.new (applied_from a item) }
{
    drop_for_hook(state, &item);
}

/// An item is done that changes nothing: what a bridge is to learn by a hook that isn't there or has another link by now.
pub fn apply_nothing<B: Node>(state: &mut State<B>, item: Item)
    requires work { MayStep state.old item changes_nothing }
    requires leaves { MayLeave state.old.graph item }
    ensures { Steps state.old state.new item changes_nothing }
{
    finish(state, &item);
}
