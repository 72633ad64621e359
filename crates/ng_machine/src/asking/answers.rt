// The answers of those messages that ask, as bytes.
ghost use Rattle.std.specs.Prelude.{◌≡◌, ◌≤◌, ◌++◌, length, map, flat_map, IfOk, OnOk};
ghost use Rattle.ng_base.specs.Kind.{kind_text};
ghost use Rattle.ng_message.specs.Layout.{link_info_bytes, node_info_bytes};
ghost use Rattle.ng_machine.specs.asking.Bytes.{hook_list_bytes, name_list_bytes, type_bytes, type_list_bytes};

use ng_base::{Kind, Name, NoMemory};
use ng_message::{LinkInfo, NodeInfo, put_link_info, put_name, put_node_info, put_u32};
use std::alloc::Global;

/// The most links of a node, and the most nodes of a list, that an answer tells of.
pub const MAX_NODES: usize = 8_192;

/// The most types that an answer tells of.
pub const MAX_TYPES: usize = 64;

/// What `nodeinfo` is answered (`struct nodeinfo`): 72 bytes.
///
/// # Errors
/// `NoMemory` where memory ran out, and for nothing else.
pub fn node_info(alloc: Global, info: &NodeInfo) -> Result<Vec<u8>, NoMemory>
    ensures { IfOk result (λ bytes. bytes.items ≡ node_info_bytes info.now) }
{
    let mut out = Vec::new(alloc);
    put_node_info(&mut out, info)?;
    Ok(out)
}

fn put_links(out: &mut Vec<u8>, links: &[LinkInfo]) -> Result<(), NoMemory>
    ensures { OnOk result (out.new.items ≡ out.old.items ++ flat_map link_info_bytes links.now) }
{
    for link in links {
        put_link_info(out, link)?;
    }
    Ok(())
}

/// What `listhooks` is answered (`struct hooklist`): the node, and then its joined links, in the order of its hooks.
///
/// # Errors
/// `NoMemory` where memory ran out, and for nothing else.
pub fn hook_list(alloc: Global, info: &NodeInfo, links: &[LinkInfo]) -> Result<Vec<u8>, NoMemory>
    ensures { IfOk result (λ bytes. bytes.items ≡ hook_list_bytes info.now links.now) }
{
    let mut out = Vec::new(alloc);
    put_node_info(&mut out, info)?;
    put_links(&mut out, links)?;
    Ok(out)
}

fn put_nodes(out: &mut Vec<u8>, nodes: &[NodeInfo]) -> Result<(), NoMemory>
    ensures { OnOk result (out.new.items ≡ out.old.items ++ flat_map node_info_bytes nodes.now) }
{
    for node in nodes {
        put_node_info(out, node)?;
    }
    Ok(())
}

/// What `listnames` and `listnodes` are answered (`struct namelist`): how many nodes, in 4 bytes, and then each, in the
/// order of their numbers. There are at most 8,192.
///
/// # Errors
/// `NoMemory` where memory ran out, and for nothing else.
#[tactic(auto, using(crate::proofs::asking::Field::counted))]
pub fn name_list(alloc: Global, nodes: &[NodeInfo]) -> Result<Vec<u8>, NoMemory>
    requires { length nodes.now ≤ 8192 }
    ensures { IfOk result (λ bytes. bytes.items ≡ name_list_bytes nodes.now) }
{
    let mut out = Vec::new(alloc);
    put_u32(&mut out, nodes.len() as u32)?;
    put_nodes(&mut out, nodes)?;
    Ok(out)
}

/// The name of a type, as the fields of names hold it.
fn kind_name(kind: Kind) -> Name
    ensures { result ≡ kind_text kind }
{
    match Name::read(kind.text().as_bytes()) {
        Ok(name) => name,
        Err(_) => unreachable!(),
    }
}

fn put_types(out: &mut Vec<u8>, types: &[(Kind, u32)]) -> Result<(), NoMemory>
    ensures { OnOk result (out.new.items ≡ out.old.items ++ flat_map type_bytes types.now) }
{
    for (kind, nodes) in types {
        put_name(out, Some(&kind_name(*kind)))?;
        put_u32(out, *nodes)?;
    }
    Ok(())
}

/// What `listtypes` is answered (`struct typelist`): how many types, in 4 bytes, and then of each its name and how many
/// nodes are of it. There are at most 64.
///
/// # Errors
/// `NoMemory` where memory ran out, and for nothing else.
#[tactic(auto, using(crate::proofs::asking::Field::counted))]
pub fn type_list(alloc: Global, types: &[(Kind, u32)]) -> Result<Vec<u8>, NoMemory>
    requires { length types.now ≤ 64 }
    ensures { IfOk result (λ bytes. bytes.items ≡ type_list_bytes types.now) }
{
    let mut out = Vec::new(alloc);
    put_u32(&mut out, types.len() as u32)?;
    put_types(&mut out, types)?;
    Ok(out)
}
