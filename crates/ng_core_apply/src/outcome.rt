// What a seat hands in is applied.
ghost use Rattle.std.specs.Prelude.{◌≡◌, IfOk, IfErr, OnErr};
ghost use Rattle.ng_core_apply.specs.AtHand.{Applies, IsHandedIn};
ghost use Rattle.ng_machine.specs.Run.{RunState};
ghost use Rattle.ng_machine.specs.World.{NodeRecord};
ghost use Rattle.ng_core_state.specs.step.Steps.{StandsOn};
ghost use Rattle.ng_core_state.specs.declared.handed.Done.TheVariants.{Read, Write, Inside};
ghost use Rattle.ng_core_state.specs.Handed.{item_done};

use crate::inside::apply_within;
use ng_core_state::service::{apply_read, apply_write};
use ng_core_state::{Done, State};
use ng_machine::Outcome;
use ng_plan::node::Node;
use ng_queue::BoxedItem;
use std::alloc::Global;

// What a packet's plan made of it comes about.
fn apply_packet<B: Node>(
    alloc: Global,
    state: &mut State<B>,
    item: BoxedItem,
    outcome: Outcome,
) -> Result<Option<B>, Done<B>>
    requires work { (a : RunState) × ((node : NodeRecord) × IsHandedIn state.old B.state (Read item outcome) a node) }
    ensures applied { IfOk result (λ out. (a : RunState) (node : NodeRecord) → IsHandedIn state.old B.state (Read item outcome) a node → Applies B.state state.new item a node out) }
    ensures err { OnErr result (StandsOn state.old state.new) }
    ensures back { IfErr result (λ it. it ≡ Read item outcome) }
{
    match apply_read(alloc, state, item, outcome) {
        Ok(()) => Ok(None),
        Err((item, outcome)) => Err(Done::Read { item, outcome }),
    }
}

// A node's box comes home, and what it made of a writer comes about.
fn apply_writer<B: Node>(
    alloc: Global,
    state: &mut State<B>,
    item: BoxedItem,
    node: B,
    outcome: Outcome,
) -> Result<Option<B>, Done<B>>
    requires work { (a : RunState) × ((was : NodeRecord) × IsHandedIn state.old B.state (Write item node outcome) a was) }
    ensures applied { IfOk result (λ out. (a : RunState) (was : NodeRecord) → IsHandedIn state.old B.state (Write item node outcome) a was → Applies B.state state.new item a was out) }
    ensures err { OnErr result (StandsOn state.old state.new) }
    ensures back { IfErr result (λ it. it ≡ Write item node outcome) }
{
    match apply_write(alloc, state, item, node, outcome) {
        Ok(()) => Ok(None),
        Err((item, node, outcome)) => Err(Done::Write {
            item,
            node,
            outcome,
        }),
    }
}

// What an item brings that needs no work outside comes about. Its place takes it again where memory ran out.
fn apply_alone<B: Node>(
    alloc: Global,
    state: &mut State<B>,
    item: BoxedItem,
) -> Result<Option<B>, Done<B>>
    requires work { (a : RunState) × ((node : NodeRecord) × IsHandedIn state.old B.state (Inside item) a node) }
    ensures applied { IfOk result (λ out. (a : RunState) (node : NodeRecord) → IsHandedIn state.old B.state (Inside item) a node → Applies B.state state.new item a node out) }
    ensures err { OnErr result (StandsOn state.old state.new) }
    ensures back { IfErr result (λ it. it ≡ Inside item) }
{
    let (item, slot) = item.part();
    match apply_within(alloc, state, item) {
        Ok(out) => Ok(out),
        Err(item) => Err(Done::Inside {
            item: slot.fill(item),
        }),
    }
}

/// Applies what a seat hands in: the machine's step of its item comes about, and the box of a node that goes by that comes out.
///
/// # Errors
/// What was handed in, where memory ran out, and for nothing else; nothing but room changed.
pub fn apply<B: Node>(
    alloc: Global,
    state: &mut State<B>,
    done: Done<B>,
) -> Result<Option<B>, Done<B>>
    requires work { (a : RunState) × ((node : NodeRecord) × IsHandedIn state.old B.state done a node) }
    ensures applied { IfOk result (λ out. (a : RunState) (node : NodeRecord) → IsHandedIn state.old B.state done a node → Applies B.state state.new (item_done done) a node out) }
    ensures err { OnErr result (StandsOn state.old state.new) }
    ensures back { IfErr result (λ it. it ≡ done) }
{
    match done {
        Done::Read { item, outcome } => apply_packet(alloc, state, item, outcome),
        Done::Write {
            item,
            node,
            outcome,
        } => apply_writer(alloc, state, item, node, outcome),
        Done::Inside { item } => apply_alone(alloc, state, item),
    }
}
