// Nodes, hooks and types, a row for each.
ghost use Rattle.std.specs.Prelude.{◌≡◌, ◌≤◌, ◌+◌, ◌*◌, ◌++◌, length, OnOk};
ghost use Rattle.ngctl_print.specs.listing.Lists.{node_names, node_id, node_hooks, node_line, list_head, list_text};
ghost use Rattle.ngctl_print.specs.listing.Lists.{peer_columns, hook_line, hook_heads, hooks_text, show_text};
ghost use Rattle.ngctl_print.specs.listing.Lists.{type_line, types_head, types_text, lines_of, IsCounted, IsShown};

use crate::listing::fields::{
    eight_digits, number_at, or_unnamed, put_column, put_decimal, put_eight_digits, put_left,
    put_text, tail, text_at,
};
use ng_base::NoMemory;
use std::alloc::Global;

// The bytes of a count.
const COUNT_LEN: usize = 4;

// `struct nodeinfo`: name, type, number and joined hooks.
const NODE_LEN: usize = 72;

const NODE_TYPE: usize = 32;

const NODE_ID: usize = 64;

const NODE_HOOKS: usize = 68;

// `struct linkinfo`: our hook, the peer's hook, and the peer as a node.
const LINK_LEN: usize = 136;

const PEER_HOOK: usize = 32;

const PEER: usize = 64;

// `struct typeinfo`: name and nodes.
const TYPE_LEN: usize = 36;

const TYPE_NODES: usize = 32;

#[tactic(auto, unfolding(crate::specs::listing::Lists::node_names))]
fn put_node_names(out: &mut Vec<u8>, node: &[u8]) -> Result<(), NoMemory>
    requires { 72 ≤ length node.now }
    ensures { OnOk result (out.new.items ≡ out.old.items ++ node_names node.now) }
{
    put_text(out, b"  Name: ")?;
    put_left(out, 15, or_unnamed(text_at(node, 0)))?;
    put_text(out, b" Type: ")?;
    put_left(out, 15, text_at(node, NODE_TYPE))?;
    Ok(())
}

#[tactic(auto, unfolding(crate::specs::listing::Lists::node_id))]
fn put_node_id(out: &mut Vec<u8>, node: &[u8]) -> Result<(), NoMemory>
    requires { 72 ≤ length node.now }
    ensures { OnOk result (out.new.items ≡ out.old.items ++ node_id node.now) }
{
    put_text(out, b" ID: ")?;
    put_eight_digits(out, number_at(node, NODE_ID))?;
    Ok(())
}

#[tactic(auto, unfolding(crate::specs::listing::Lists::node_hooks))]
fn put_node_hooks(alloc: Global, out: &mut Vec<u8>, node: &[u8]) -> Result<(), NoMemory>
    requires { 72 ≤ length node.now }
    ensures { OnOk result (out.new.items ≡ out.old.items ++ node_hooks node.now) }
{
    put_text(out, b"   Num hooks: ")?;
    put_decimal(alloc, out, number_at(node, NODE_HOOKS))?;
    put_text(out, b"\n")?;
    Ok(())
}

/// Appends the line of a node, whose bytes `node` begins with.
fn put_node(alloc: Global, out: &mut Vec<u8>, node: &[u8]) -> Result<(), NoMemory>
    requires { 72 ≤ length node.now }
    ensures { OnOk result (out.new.items ≡ out.old.items ++ node_line node.now) }
{
    put_node_names(out, node)?;
    put_node_id(out, node)?;
    put_node_hooks(alloc, out, node)?;
    Ok(())
}

fn put_nodes(alloc: Global, out: &mut Vec<u8>, count: usize, nodes: &[u8]) -> Result<(), NoMemory>
    requires { 72 * count ≤ length nodes.now }
    ensures { OnOk result (out.new.items ≡ out.old.items ++ lines_of node_line 72 count nodes.now) }
{
    for number in 0..count {
        put_node(alloc, out, tail(nodes, NODE_LEN * number))?;
    }
    Ok(())
}

#[tactic(auto, unfolding(crate::specs::listing::Lists::list_head))]
fn put_list_head(alloc: Global, out: &mut Vec<u8>, named: bool, count: u32) -> Result<(), NoMemory>
    ensures { OnOk result (out.new.items ≡ out.old.items ++ list_head named count) }
{
    put_text(out, b"There are ")?;
    put_decimal(alloc, out, count)?;
    put_text(out, b" total ")?;
    put_text(out, if named { b"named nodes:" } else { b"nodes:" })?;
    put_text(out, b"\n")?;
    Ok(())
}

/// Appends the text of `list`: how many nodes there are, and a line for each. `named` is whether only
/// nodes with a name were asked for (`-n`). `bytes` are the answer, a `struct namelist` of
/// ng_message.h: a count of 4 bytes and 72 bytes a node. ngctl(8), "list".
///
/// # Errors
/// `NoMemory` where memory ran out, and for nothing else.
pub fn put_list(alloc: Global, out: &mut Vec<u8>, named: bool, bytes: &[u8]) -> Result<(), NoMemory>
    requires { IsCounted 72 bytes.now }
    ensures { OnOk result (out.new.items ≡ out.old.items ++ list_text named bytes.now) }
{
    let count = number_at(bytes, 0);
    put_list_head(alloc, out, named, count)?;
    put_nodes(alloc, out, count as usize, tail(bytes, COUNT_LEN))?;
    Ok(())
}

/// Appends the name, type and number of the node at a hook's other end.
#[tactic(auto, unfolding(crate::specs::listing::Lists::peer_columns))]
fn put_peer(out: &mut Vec<u8>, node: &[u8]) -> Result<(), NoMemory>
    requires { 72 ≤ length node.now }
    ensures { OnOk result (out.new.items ≡ out.old.items ++ peer_columns node.now) }
{
    put_column(out, 15, or_unnamed(text_at(node, 0)))?;
    put_column(out, 12, text_at(node, NODE_TYPE))?;
    put_column(out, 15, &eight_digits(number_at(node, NODE_ID)))?;
    Ok(())
}

/// Appends the line of a hook, whose bytes `link` begins with.
#[tactic(auto, unfolding(crate::specs::listing::Lists::hook_line))]
fn put_hook(out: &mut Vec<u8>, link: &[u8]) -> Result<(), NoMemory>
    requires { 136 ≤ length link.now }
    ensures { OnOk result (out.new.items ≡ out.old.items ++ hook_line link.now) }
{
    put_text(out, b"  ")?;
    put_column(out, 15, text_at(link, 0))?;
    put_peer(out, tail(link, PEER))?;
    put_text(out, text_at(link, PEER_HOOK))?;
    put_text(out, b"\n")?;
    Ok(())
}

#[tactic(auto, unfolding(crate::specs::listing::Lists::hook_heads))]
fn put_hook_heads(out: &mut Vec<u8>) -> Result<(), NoMemory>
    ensures { OnOk result (out.new.items ≡ out.old.items ++ hook_heads) }
{
    put_text(
        out,
        b"  Local hook      Peer name       Peer type    Peer ID         Peer hook",
    )?;
    put_text(out, b"\n")?;
    put_text(
        out,
        b"  ----------      ---------       ---------    -------         ---------",
    )?;
    put_text(out, b"\n")?;
    Ok(())
}

fn put_links(out: &mut Vec<u8>, count: usize, links: &[u8]) -> Result<(), NoMemory>
    requires { 136 * count ≤ length links.now }
    ensures { OnOk result (out.new.items ≡ out.old.items ++ lines_of hook_line 136 count links.now) }
{
    for number in 0..count {
        put_hook(out, tail(links, LINK_LEN * number))?;
    }
    Ok(())
}

/// Appends the heads and the hooks, or nothing where there are no hooks.
fn put_hooks(out: &mut Vec<u8>, count: usize, links: &[u8]) -> Result<(), NoMemory>
    requires { 136 * count ≤ length links.now }
    ensures { OnOk result (out.new.items ≡ out.old.items ++ hooks_text count links.now) }
{
    if count == 0 {
        return Ok(());
    }
    put_hook_heads(out)?;
    put_links(out, count, links)?;
    Ok(())
}

/// Appends the text of `show`: the line of the node, and unless it is `brief` (`-n`) the heads and a
/// line for each joined hook, where there are hooks. `bytes` are the answer. Where it is brief that is
/// a `struct nodeinfo` of ng_message.h, 72 bytes, and else a `struct hooklist`, with 136 bytes more for
/// each hook that the node counts. ngctl(8), "show".
///
/// # Errors
/// `NoMemory` where memory ran out, and for nothing else.
pub fn put_show(alloc: Global, out: &mut Vec<u8>, brief: bool, bytes: &[u8]) -> Result<(), NoMemory>
    requires { IsShown brief bytes.now }
    ensures { OnOk result (out.new.items ≡ out.old.items ++ show_text brief bytes.now) }
{
    put_node(alloc, out, bytes)?;
    if brief {
        return Ok(());
    }
    put_hooks(
        out,
        number_at(bytes, NODE_HOOKS) as usize,
        tail(bytes, NODE_LEN),
    )?;
    Ok(())
}

/// Appends the line of a type, whose bytes `kind` begins with.
#[tactic(auto, unfolding(crate::specs::listing::Lists::type_line))]
fn put_type(alloc: Global, out: &mut Vec<u8>, kind: &[u8]) -> Result<(), NoMemory>
    requires { 36 ≤ length kind.now }
    ensures { OnOk result (out.new.items ≡ out.old.items ++ type_line kind.now) }
{
    put_text(out, b"  ")?;
    put_column(out, 15, text_at(kind, 0))?;
    put_decimal(alloc, out, number_at(kind, TYPE_NODES))?;
    put_text(out, b"\n")?;
    Ok(())
}

fn put_type_lines(
    alloc: Global,
    out: &mut Vec<u8>,
    count: usize,
    kinds: &[u8],
) -> Result<(), NoMemory>
    requires { 36 * count ≤ length kinds.now }
    ensures { OnOk result (out.new.items ≡ out.old.items ++ lines_of type_line 36 count kinds.now) }
{
    for number in 0..count {
        put_type(alloc, out, tail(kinds, TYPE_LEN * number))?;
    }
    Ok(())
}

#[tactic(auto, unfolding(crate::specs::listing::Lists::types_head))]
fn put_types_head(alloc: Global, out: &mut Vec<u8>, count: u32) -> Result<(), NoMemory>
    ensures { OnOk result (out.new.items ≡ out.old.items ++ types_head count) }
{
    put_text(out, b"There are ")?;
    put_decimal(alloc, out, count)?;
    put_text(out, b" types:")?;
    put_text(out, b"\n")?;
    Ok(())
}

/// Appends the text of `types`: how many types of nodes there are, and a line for each with how many
/// nodes are of it. `bytes` are the answer, a `struct typelist` of ng_message.h: a count of 4 bytes and
/// 36 bytes a type. ngctl(8), "types".
///
/// # Errors
/// `NoMemory` where memory ran out, and for nothing else.
pub fn put_types(alloc: Global, out: &mut Vec<u8>, bytes: &[u8]) -> Result<(), NoMemory>
    requires { IsCounted 36 bytes.now }
    ensures { OnOk result (out.new.items ≡ out.old.items ++ types_text bytes.now) }
{
    let count = number_at(bytes, 0);
    put_types_head(alloc, out, count)?;
    put_type_lines(alloc, out, count as usize, tail(bytes, COUNT_LEN))?;
    Ok(())
}
