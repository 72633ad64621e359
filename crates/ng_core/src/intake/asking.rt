// What a command does to the world.
ghost use Rattle.std.specs.Prelude.{◌≡◌, ◌≤◌, ℕ, length, IfOk, Some};
ghost use Rattle.ng_machine.specs.Change.{arrival};
ghost use Rattle.ng_machine.specs.Errors.{einval, enotconn};
ghost use Rattle.ng_machine.specs.Feed.{RunInput, ask_at, ask_to, feed_request, order_at, refuse_line, send_message, write_by};
ghost use Rattle.ng_machine.specs.World.{World, hook_at, node_at, own_node};
ghost use Rattle.ng_message.specs.Fields.{name_field as field_of};
ghost use Rattle.ng_path.specs.Address.{read_address};
ghost use Rattle.ng_table.specs.reading.Reading.{reading};
ghost use Rattle.ng_core.specs.intake.Asked.{FitsHeader, request};
ghost use Rattle.ng_core.specs.intake.Decided.{does, refuse_astray};

use crate::intake::asked::Asked;
use crate::intake::decided::Decided;
use crate::intake::leading::{Astray, OWN_NODE, find};
use ng_base::{Bytes, Errno, Name, NoMemory, NodeId, Packet};
use ng_machine::{Body, Door, Hook};
use ng_message::{GENERIC_COOKIE, Header, Msg, NAME_LEN, VERSION};
use ng_plan::node::Node;
use ng_table::reading::{Found, read_message};
use ng_topology::Graph;
use std::alloc::Global;

// A command is refused with this error and these words.
fn refuse(alloc: Global, errno: Errno, why: &str) -> Result<Decided, NoMemory>
    ensures { IfOk result (λ d. (w : World) (command : ℕ) → does d w command ≡ refuse_line w command errno why.now) }
{
    Ok(Decided::Refuse {
        errno,
        why: Bytes(Vec::from_slice(alloc, why.as_bytes())?),
    })
}

// A command whose address leads nowhere.
fn refuse_address(alloc: Global, why: Astray) -> Result<Decided, NoMemory>
    ensures { IfOk result (λ d. (w : World) (command : ℕ) → does d w command ≡ refuse_astray why w command) }
{
    match why {
        Astray::BadPath => refuse(alloc, Errno::INVAL, "bad path"),
        Astray::Nowhere => refuse(alloc, Errno::NOENT, ""),
    }
}

// The field of a name.
fn name_field(name: &[u8]) -> [u8; NAME_LEN]
    requires { length name.now ≤ 32 }
    ensures { result ≡ field_of name.now }
{
    let mut field = [0u8; NAME_LEN];
    field[..name.len()].copy_from_slice(name);
    field
}

// A message from the own node, whose token and tag are the command's number. A length of arguments that a number of 32 bits can't
// say counts as out of memory.
fn message(
    command: u32,
    to: NodeId,
    cookie: u32,
    number: u32,
    name: &[u8],
    args: Bytes,
) -> Result<Decided, NoMemory>
    requires { length name.now ≤ 32 }
    ensures { IfOk result (λ d. (w : World) → does d w command ≡ send_message w to (node_at w to) command cookie number name.now args) }
{
    let Ok(arglen) = u32::try_from(args.0.len()) else {
        return Err(NoMemory);
    };
    let header = Header {
        version: VERSION,
        spare: 0,
        spare2: 0,
        arglen,
        cmd: number,
        flags: 0,
        token: command,
        typecookie: cookie,
        cmdstr: name_field(name),
    };
    let msg = Msg {
        from: OWN_NODE,
        header,
        args,
    };
    Ok(Decided::Accept {
        to,
        body: Body::Msg(msg),
        tag: Some(command),
    })
}

// A generic order for the node at an address.
fn order<B: Node>(
    alloc: Global,
    graph: &Graph<B>,
    command: u32,
    path: &[u8],
    number: u32,
    name: &str,
    args: Bytes,
) -> Result<Decided, NoMemory>
    requires { length name.now ≤ 32 }
    ensures { IfOk result (λ d. (w : World) → w.nodes ≡ graph.now.nodes
        → does d w command ≡ order_at w command (read_address path.now) number name.now args) }
{
    match find(graph, path) {
        Err(why) => refuse_address(alloc, why),
        Ok(to) => message(command, to, GENERIC_COOKIE, number, name.as_bytes(), args),
    }
}

// A message by its name for a node.
fn ask_node<B: Node>(
    alloc: Global,
    graph: &Graph<B>,
    command: u32,
    to: NodeId,
    name: &[u8],
    text: &[u8],
) -> Result<Decided, NoMemory>
    ensures { IfOk result (λ d. (given : RunInput) (w : World) → given.reading ≡ reading → w.nodes ≡ graph.now.nodes
        → does d w command ≡ ask_to given w command (Some to) name.now text.now) }
{
    let Some(kind) = graph.kind(to) else {
        return refuse(alloc, Errno::NOENT, "");
    };
    match read_message(alloc, kind, name, text)? {
        Found::Unknown => refuse(alloc, Errno::OPNOTSUPP, ""),
        Found::Wrong(why) => Ok(Decided::Refuse {
            errno: Errno::INVAL,
            why,
        }),
        Found::Message {
            cookie,
            number,
            args,
        } => message(command, to, cookie, number, name, args),
    }
}

// A message by its name for the node at an address.
fn ask<B: Node>(
    alloc: Global,
    graph: &Graph<B>,
    command: u32,
    path: &[u8],
    name: &[u8],
    text: &[u8],
) -> Result<Decided, NoMemory>
    ensures { IfOk result (λ d. (given : RunInput) (w : World) → given.reading ≡ reading → w.nodes ≡ graph.now.nodes
        → does d w command ≡ ask_at given w command (read_address path.now) name.now text.now) }
{
    match find(graph, path) {
        Err(why) => refuse_address(alloc, why),
        Ok(to) => ask_node(alloc, graph, command, to, name, text),
    }
}

// A packet arrives at the hook's peer, where the hook is joined and its peer is there.
fn arrive<B: Node>(
    alloc: Global,
    graph: &Graph<B>,
    hook: &Hook,
    bytes: &[u8],
) -> Result<Decided, NoMemory>
    ensures { IfOk result (λ d. (w : World) (command : ℕ) → w.nodes ≡ graph.now.nodes
        → does d w command ≡ write_by w command (Some hook.now) bytes.now) }
{
    if !hook.joined {
        return refuse(alloc, Errno::NOTCONN, "");
    }
    if graph.kind(hook.peer.node).is_none() {
        return refuse(alloc, Errno::NOTCONN, "");
    }
    Ok(Decided::Accept {
        to: hook.peer.node,
        body: Body::Frame {
            door: Door::Hook(hook.peer.hook),
            link: Some(hook.link),
            packet: Packet::new(alloc, bytes)?,
        },
        tag: None,
    })
}

// A packet, out of a hook of the own node.
fn write<B: Node>(
    alloc: Global,
    graph: &Graph<B>,
    hook: &Name,
    bytes: &[u8],
) -> Result<Decided, NoMemory>
    ensures { IfOk result (λ d. (w : World) (command : ℕ) → w.nodes ≡ graph.now.nodes
        → does d w command ≡ write_by w command (hook_at (node_at w own_node) hook.now) bytes.now) }
{
    match graph.peer(OWN_NODE, hook) {
        None => refuse(alloc, Errno::NOTCONN, ""),
        Some(hook) => arrive(alloc, graph, hook, bytes),
    }
}

/// What the command of this number does, in the world that has these nodes.
///
/// # Errors
/// `NoMemory` where memory ran out, and for nothing else.
pub fn decide<B: Node>(
    alloc: Global,
    graph: &Graph<B>,
    command: u32,
    asked: Asked,
) -> Result<Decided, NoMemory>
    requires { FitsHeader (request asked) }
    ensures { IfOk result (λ d. (given : RunInput) (w : World) → given.reading ≡ reading → w.nodes ≡ graph.now.nodes
        → does d w command ≡ feed_request given w command (request asked)) }
{
    match asked {
        Asked::Refused(why) => Ok(Decided::Refuse {
            errno: Errno::INVAL,
            why,
        }),
        Asked::Help => Ok(Decided::Help),
        Asked::Nothing => Ok(Decided::Nothing),
        Asked::Order {
            path,
            number,
            name,
            args,
        } => order(alloc, graph, command, path.0.as_slice(), number, name, args),
        Asked::Message {
            path,
            command: name,
            args,
        } => ask(
            alloc,
            graph,
            command,
            path.0.as_slice(),
            name.0.as_slice(),
            args.0.as_slice(),
        ),
        Asked::Packet { hook, bytes } => write(alloc, graph, &hook, bytes.0.as_slice()),
    }
}
