// An item that needs no work outside is applied.
ghost use Rattle.std.specs.Prelude.{◌≡◌, IfOk, IfErr, OnErr};
ghost use Rattle.ng_core_apply.specs.AtHand.{Applies, IsWithin};
ghost use Rattle.ng_machine.specs.Run.{RunState};
ghost use Rattle.ng_machine.specs.World.{NodeRecord};
ghost use Rattle.ng_core_state.specs.step.Steps.{StandsOn};

use crate::orders::{Inside, apply_inside};
use crate::removing::apply_left;
use ng_core_state::State;
use ng_machine::Item;
use ng_plan::node::Node;
use std::alloc::Global;

/// An item that needs no work outside is applied: the box of a node that goes.
///
/// # Errors
/// The item itself where memory ran out, and for nothing else; nothing but room changed.
pub fn apply_within<B: Node>(
    alloc: Global,
    state: &mut State<B>,
    item: Item,
) -> Result<Option<B>, Item>
    requires work { (a : RunState) × ((node : NodeRecord) × IsWithin state.old item a node) }
    ensures applied { IfOk result (λ out. (a : RunState) (node : NodeRecord) → IsWithin state.old item a node → Applies B.state state.new item a node out) }
    ensures err { OnErr result (StandsOn state.old state.new) }
    ensures back { IfErr result (λ it. it ≡ item) }
{
    match apply_inside(alloc, state, item)? {
        Inside::Done => Ok(None),
        Inside::Left(item) => apply_left(alloc, state, item),
    }
}
