// What a node tells of itself and of its hooks.
ghost use Rattle.std.specs.Prelude.{◌≡◌, ◌++◌, take, vec_len, OnOk, OnErr};
ghost use Rattle.ng_message.specs.Layout.{kind_or_empty, link_info_bytes, node_info_bytes};
ghost use Rattle.ng_message.specs.Fields.{name_field};

use crate::writers::{or_as_before, put_name, put_text, put_u32};
use ng_base::{Kind, Name, NoMemory, NodeId};

/// What is told of a node (`struct nodeinfo` of netgraph(4)).
#[derive(Clone, Copy, Debug, PartialEq, Eq)]
pub struct NodeInfo {
    /// Its name, if it has one.
    pub name: Option<Name>,
    /// Its type, unless the node isn't there.
    pub kind: Option<Kind>,
    /// Its number.
    pub id: NodeId,
    /// How many hooks it has that are joined.
    pub hooks: u32,
}

/// What is told of a link of a node (`struct linkinfo` of netgraph(4)).
#[derive(Clone, Copy, Debug, PartialEq, Eq)]
pub struct LinkInfo {
    /// The node's own hook.
    pub ourhook: Name,
    /// The hook at the other end.
    pub peerhook: Name,
    /// The node at the other end.
    pub peer: NodeInfo,
}

/// Appends what is told of a node, 72 bytes: its name and its type in 32 bytes each, its number and
/// its hooks in 4 each, the lowest byte first. Where there is no name or no type the field is empty.
///
/// # Errors
/// `NoMemory` where memory ran out, and for nothing else; `out` is then as before.
pub fn put_node_info(out: &mut Vec<u8>, info: &NodeInfo) -> Result<(), NoMemory>
    ensures ok { OnOk result (out.new.items ≡ out.old.items ++ node_info_bytes info.now) }
    ensures err { OnErr result (out.new.items ≡ out.old.items) }
{
    let start = out.len();
    let done = append_node_info(out, info);
    or_as_before(out, start, done)
}

/// Appends what is told of a link, 136 bytes: our hook and the peer's in 32 bytes each, and what is
/// told of the peer.
///
/// # Errors
/// `NoMemory` where memory ran out, and for nothing else; `out` is then as before.
pub fn put_link_info(out: &mut Vec<u8>, info: &LinkInfo) -> Result<(), NoMemory>
    ensures ok { OnOk result (out.new.items ≡ out.old.items ++ link_info_bytes info.now) }
    ensures err { OnErr result (out.new.items ≡ out.old.items) }
{
    let start = out.len();
    let done = append_link_info(out, info);
    or_as_before(out, start, done)
}

/// Appends as much of what is told of a node as there is memory for.
fn append_node_info(out: &mut Vec<u8>, info: &NodeInfo) -> Result<(), NoMemory>
    ensures ok { OnOk result (out.new.items ≡ out.old.items ++ node_info_bytes info.now) }
    ensures err { OnErr result (take (vec_len out.old) out.new.items ≡ out.old.items) }
{
    put_name(out, info.name.as_ref())?;
    put_kind(out, info.kind)?;
    put_u32(out, info.id.0)?;
    put_u32(out, info.hooks)
}

/// Appends as much of what is told of a link as there is memory for.
fn append_link_info(out: &mut Vec<u8>, info: &LinkInfo) -> Result<(), NoMemory>
    ensures ok { OnOk result (out.new.items ≡ out.old.items ++ link_info_bytes info.now) }
    ensures err { OnErr result (take (vec_len out.old) out.new.items ≡ out.old.items) }
{
    put_name(out, Some(&info.ourhook))?;
    put_name(out, Some(&info.peerhook))?;
    put_node_info(out, &info.peer)
}

/// Appends the name of a type in 32 bytes, or 32 NULs.
fn put_kind(out: &mut Vec<u8>, kind: Option<Kind>) -> Result<(), NoMemory>
    ensures ok { OnOk result (out.new.items ≡ out.old.items ++ name_field (kind_or_empty kind)) }
    ensures err { OnErr result (out.new.items ≡ out.old.items) }
{
    let text = kind.map_or("", |kind| kind.text());
    put_text(out, text.as_bytes())
}
