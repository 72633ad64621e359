// Questions are answered, and answers reach the socket.
ghost use Rattle.std.specs.Prelude.{◌≡◌, ◌<◌, vec_len, vec_capacity, OnOk, OnErr, IfOk, IfErr};
ghost use Rattle.ng_base.specs.declared.ids.NodeId.{NodeId as NodeNumber};
ghost use Rattle.ng_base.specs.declared.ids.Stamp.{Stamp as TheStamp};
ghost use Rattle.ng_machine.specs.Change.{change_all};
ghost use Rattle.ng_machine.specs.Run.{RunState};
ghost use Rattle.ng_queue.specs.pending.Holds.{in_world};
ghost use Rattle.ng_machine.specs.Generic.{answer_to};
ghost use Rattle.ng_core_apply.specs.orders.Asked.{message_of, told_by};
ghost use Rattle.ng_core_apply.specs.orders.Orders.{answers, tells};
ghost use Rattle.ng_core_state.specs.step.Steps.{MayStep, StandsOn, Steps};
ghost use Rattle.ng_core_state.specs.Stands.{MayLeave, Stands};

use crate::orders::asking::{Question, answer_of};
use ng_base::{Bytes, NoMemory, NodeId};
use ng_core_state::State;
use ng_core_state::step::{finish, finish_accepted, widen, widen_told};
use ng_machine::{Body, Item, Told};
use ng_message::{ANSWER_FLAG, Header, Msg};
use ng_plan::node::Node;
use std::alloc::Global;

// No node has this number or a greater one.
const MAX_NODES: usize = 16_777_216;

// The message that answers one with this header: none where a number of 32 bits can't say its length.
fn answer_with(from: NodeId, header: Header, bytes: Vec<u8>) -> Result<Msg, NoMemory>
    ensures { IfOk result (λ msg. msg ≡ answer_to from (message_of from header) bytes.items) }
{
    let Ok(arglen) = u32::try_from(bytes.len()) else {
        return Err(NoMemory);
    };
    let header = Header {
        arglen,
        flags: ANSWER_FLAG,
        ..header
    };
    Ok(Msg {
        from,
        header,
        args: Bytes(bytes),
    })
}

/// A question of an order is answered: a message with the answer is accepted at the sender, with the cookie, the number, the
/// token, the name and the tag of what it answers.
///
/// # Errors
/// The item itself where memory ran out, and for nothing else; nothing but room changed.
pub fn apply_question<B: Node>(
    alloc: Global,
    state: &mut State<B>,
    item: Item,
    sender: NodeId,
    header: Header,
    question: Question,
) -> Result<(), Item>
    requires work { MayStep state.old item (answers item sender header question) }
    requires leaves { MayLeave state.old.graph item }
    ensures applied { OnOk result (Steps state.old state.new item (answers item sender header question)) }
    ensures err { OnErr result (StandsOn state.old state.new) }
    ensures back { IfErr result (λ it. it ≡ item) }
{
    let end = state.pending.queues.len().min(MAX_NODES) as u32;
    let Ok(bytes) = answer_of(alloc, &state.graph, item.to, end, question) else {
        return Err(item);
    };
    let Ok(msg) = answer_with(item.to, header, bytes) else {
        return Err(item);
    };
    if widen(state, sender).is_err() {
        return Err(item);
    }
    finish_accepted(state, &item, sender, Body::Msg(msg));
    Ok(())
}

// What an item brings is told as an answer to the command of this tag, where it is a message and one waits. There is room.
fn tell_answer<B: Node>(state: &mut State<B>, tag: Option<u32>, body: Body)
    requires { vec_len state.old.told < vec_capacity state.old.told }
    ensures { (a : RunState) (at : NodeNumber) (stamp : TheStamp) → Stands state.old a
        → Stands state.new (in_world a (change_all at stamp a.world (told_by tag body))) }
{
    let Some(command) = tag else {
        return;
    };
    let Body::Msg(msg) = body else {
        return;
    };
    state.tell(Told::Answer {
        command,
        from: msg.from,
        cookie: msg.header.typecookie,
        number: msg.header.cmd,
        bytes: msg.args,
    });
}

/// An answer that reached the socket is told to the command that asked, where one waits.
///
/// # Errors
/// The item itself where memory ran out, and for nothing else; nothing but room changed.
pub fn apply_answer<B: Node>(state: &mut State<B>, item: Item) -> Result<(), Item>
    requires work { MayStep state.old item (tells item) }
    requires leaves { MayLeave state.old.graph item }
    ensures applied { OnOk result (Steps state.old state.new item (tells item)) }
    ensures err { OnErr result (StandsOn state.old state.new) }
    ensures back { IfErr result (λ it. it ≡ item) }
{
    if widen_told(state, 1).is_err() {
        return Err(item);
    }
    finish(state, &item);
    let Item { tag, body, .. } = item;
    tell_answer(state, tag, body);
    Ok(())
}
