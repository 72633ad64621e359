// Messages are applied: orders, answers, and what nobody knows.
ghost use Rattle.std.specs.Prelude.{◌≡◌, ℕ, ◌==◌, position, IfOk, IfErr, OnErr, true};
ghost use Rattle.ng_machine.specs.Effect.{class_of};
ghost use Rattle.ng_machine.specs.Order.{Asks};
ghost use Rattle.ng_core_apply.specs.orders.Asked.{question_of};
ghost use Rattle.ng_machine.specs.Run.{RunState};
ghost use Rattle.ng_machine.specs.World.{NodeRecord};
ghost use Rattle.ng_message.specs.Fields.{field_text};
ghost use Rattle.ng_machine.specs.asking.Orders.{order_of, read_as};
ghost use Rattle.ng_core_apply.specs.orders.Inside.{Became, IsInside};
ghost use Rattle.ng_core_apply.specs.orders.Classes.{OrderBecame, ReadBecame, carries_out, changes_as_read, changes_graph, class_as, obeys};
ghost use Rattle.ng_core_state.specs.step.Steps.{MayStep, StandsOn};
ghost use Rattle.ng_topology.specs.Topology.{IsAtHome};
ghost use Rattle.ng_core_state.specs.Stands.{MayLeave};

use crate::orders::{
    Inside, Question, apply_answer, apply_connect, apply_link, apply_mkpeer, apply_question,
    apply_refusal, apply_rename,
};
use ng_base::{Errno, Kind, NodeId};
use ng_core_state::State;
use ng_machine::asking::{Order, read_order};
use ng_machine::{Body, Item};
use ng_message::{ANSWER_FLAG, GENERIC_COOKIE, Header, Msg};
use ng_plan::node::Node;
use std::alloc::Global;

// The cookie of the first type's own messages; the others follow in the order of the types.
const FIRST_COOKIE: u32 = 0x4e47_0001;

/// Which message it is: an answer at the socket comes first, and the generic cookie before the type's.
#[derive(Clone, Copy, Debug, PartialEq, Eq)]
pub enum Class {
    /// An answer at the socket.
    Answer,
    /// An order.
    Order,
    /// A message of the type's own.
    Own,
    /// A message of a cookie that nobody at the node knows.
    Foreign,
}

fn class_of(kind: Kind, msg: &Msg) -> Class
    ensures { class_as result ≡ class_of kind msg.now }
{
    if msg.header.flags % 2 == ANSWER_FLAG && kind.number() == Kind::Socket.number() {
        return Class::Answer;
    }
    if msg.header.typecookie == GENERIC_COOKIE {
        return Class::Order;
    }
    if msg.header.typecookie == FIRST_COOKIE + u32::from(kind.number()) {
        return Class::Own;
    }
    Class::Foreign
}

fn first_nul(field: &[u8]) -> Option<usize>
    ensures { result ≡ position (λ byte. byte == 0) field.now }
{
    field.iter().position(|byte| *byte == 0)
}

// What stands before the first NUL of a field.
fn text_of(field: &[u8]) -> &[u8]
    ensures { result.now ≡ field_text field.now }
{
    match first_nul(field) {
        Some(end) => &field[..end],
        None => field,
    }
}

// A question of a message of this sender and this header is answered.
fn ask<B: Node>(
    alloc: Global,
    state: &mut State<B>,
    item: Item,
    sender: NodeId,
    header: Header,
    question: Question,
) -> Result<Inside, Item>
    requires work { MayStep state.old item (carries_out item sender header (Asks (question_of question))) }
    requires leaves { MayLeave state.old.graph item }
    ensures became { IfOk result (OrderBecame state.old state.new item sender header (Asks (question_of question))) }
    ensures err { OnErr result (StandsOn state.old state.new) }
    ensures back { IfErr result (λ it. it ≡ item) }
{
    apply_question(alloc, state, item, sender, header, question)?;
    Ok(Inside::Done)
}

// An order of a message of this sender and this header is carried out, or left.
fn apply_order<B: Node>(
    alloc: Global,
    state: &mut State<B>,
    item: Item,
    sender: NodeId,
    header: Header,
    order: Order,
) -> Result<Inside, Item>
    requires work { MayStep state.old item (carries_out item sender header (order_of order)) }
    requires leaves { MayLeave state.old.graph item }
    requires home { changes_graph (order_of order) ≡ true → IsAtHome state.old.graph item.to }
    ensures became { IfOk result (OrderBecame state.old state.new item sender header (order_of order)) }
    ensures err { OnErr result (StandsOn state.old state.new) }
    ensures back { IfErr result (λ it. it ≡ item) }
{
    match order {
        Order::Shutdown => Ok(Inside::Left(item)),
        Order::Rmhook(_) => Ok(Inside::Left(item)),
        Order::Mkpeer {
            kind_name,
            ourhook,
            peerhook,
        } => {
            apply_mkpeer(alloc, state, item, &kind_name, &ourhook, &peerhook)?;
            Ok(Inside::Done)
        }
        Order::Connect {
            path,
            ourhook,
            peerhook,
        } => {
            apply_connect(alloc, state, item, text_of(&path), &ourhook, &peerhook)?;
            Ok(Inside::Done)
        }
        Order::Name(name) => {
            apply_rename(alloc, state, item, name)?;
            Ok(Inside::Done)
        }
        Order::NodeInfo => ask(alloc, state, item, sender, header, Question::NodeInfo),
        Order::ListHooks => ask(alloc, state, item, sender, header, Question::ListHooks),
        Order::ListNames => ask(alloc, state, item, sender, header, Question::ListNames),
        Order::ListNodes => ask(alloc, state, item, sender, header, Question::ListNodes),
        Order::ListTypes => ask(alloc, state, item, sender, header, Question::ListTypes),
    }
}

// An order of a message is carried out, left, or refused where it can't be read.
fn apply_read<B: Node>(
    alloc: Global,
    state: &mut State<B>,
    item: Item,
    sender: NodeId,
    header: Header,
    read: Result<Order, Errno>,
) -> Result<Inside, Item>
    requires work { MayStep state.old item (obeys item sender header (read_as read)) }
    requires leaves { MayLeave state.old.graph item }
    requires home { changes_as_read (read_as read) ≡ true → IsAtHome state.old.graph item.to }
    ensures became { IfOk result (ReadBecame state.old state.new item sender header (read_as read)) }
    ensures err { OnErr result (StandsOn state.old state.new) }
    ensures back { IfErr result (λ it. it ≡ item) }
{
    match read {
        Err(errno) => {
            apply_refusal(alloc, state, item, errno)?;
            Ok(Inside::Done)
        }
        Ok(order) => apply_order(alloc, state, item, sender, header, order),
    }
}

// A message is applied, or left.
fn apply_message<B: Node>(alloc: Global, state: &mut State<B>, item: Item) -> Result<Inside, Item>
    requires work { (a : RunState) × ((node : NodeRecord) × IsInside state.old item a node) }
    requires leaves { MayLeave state.old.graph item }
    requires message { (msg : Msg) × (item.body ≡ Body.Msg msg) }
    ensures became { IfOk result (Became state.old state.new item) }
    ensures err { OnErr result (StandsOn state.old state.new) }
    ensures back { IfErr result (λ it. it ≡ item) }
{
    let Some(kind) = state.graph.kind(item.to) else {
        unreachable!()
    };
    let Body::Msg(msg) = &item.body else {
        unreachable!()
    };
    match class_of(kind, msg) {
        Class::Answer => {
            apply_answer(state, item)?;
            Ok(Inside::Done)
        }
        Class::Order => {
            let (sender, header) = (msg.from, msg.header);
            let read = read_order(msg);
            apply_read(alloc, state, item, sender, header, read)
        }
        Class::Own => Ok(Inside::Left(item)),
        Class::Foreign => {
            apply_refusal(alloc, state, item, Errno::INVAL)?;
            Ok(Inside::Done)
        }
    }
}

/// An item that needs no work outside is applied, or left where it is an order to shut down or to take a hook away, a peer's
/// going, or a message of the type's own.
///
/// # Errors
/// The item itself where memory ran out, and for nothing else; nothing but room changed.
pub fn apply_inside<B: Node>(
    alloc: Global,
    state: &mut State<B>,
    item: Item,
) -> Result<Inside, Item>
    requires work { (a : RunState) × ((node : NodeRecord) × IsInside state.old item a node) }
    requires leaves { MayLeave state.old.graph item }
    ensures became { IfOk result (Became state.old state.new item) }
    ensures err { OnErr result (StandsOn state.old state.new) }
    ensures back { IfErr result (λ it. it ≡ item) }
{
    match &item.body {
        Body::Msg(_) => apply_message(alloc, state, item),
        _ => apply_link(alloc, state, item),
    }
}
