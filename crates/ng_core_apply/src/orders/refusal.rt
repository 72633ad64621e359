// A step that is refused.
ghost use Rattle.std.specs.Prelude.{◌≡◌, OnOk, OnErr, IfErr};
ghost use Rattle.ng_core_apply.specs.orders.Orders.{refuses};
ghost use Rattle.ng_core_state.specs.step.Steps.{MayStep, StandsOn, Steps};
ghost use Rattle.ng_core_state.specs.Stands.{MayLeave};

use ng_base::Errno;
use ng_core_state::State;
use ng_core_state::step::{finish_refused, widen_told};
use ng_machine::Item;
use ng_plan::node::Node;
use std::alloc::Global;

/// An item is refused: its error is told to the command that waits for it, where one does, and nothing else changes.
/// So it goes with a message whose cookie nobody at its node knows, and with an order that can't be read.
///
/// # Errors
/// The item itself where memory ran out, and for nothing else; nothing but room changed.
pub fn apply_refusal<B: Node>(
    alloc: Global,
    state: &mut State<B>,
    item: Item,
    errno: Errno,
) -> Result<(), Item>
    requires work { MayStep state.old item (refuses item errno) }
    requires leaves { MayLeave state.old.graph item }
    ensures applied { OnOk result (Steps state.old state.new item (refuses item errno)) }
    ensures err { OnErr result (StandsOn state.old state.new) }
    ensures back { IfErr result (λ it. it ≡ item) }
{
    if widen_told(state, 1).is_err() {
        return Err(item);
    }
    finish_refused(alloc, state, &item, errno);
    Ok(())
}
