// The numbers of nodes under their names.
ghost use Rattle.std.specs.Prelude.{◌≡◌, OnOk, OnErr};
ghost use Rattle.ng_topology.specs.NameIndex.{Enters, Forgets};

use ng_base::{Name, NoMemory, NodeId};
use std::collections::BTreeMap;

/// Puts a node's number under its name, if it has one.
///
/// # Errors
/// `NoMemory` where memory ran out, and for nothing else; the index is then as before.
pub fn enter_name(
    index: &mut BTreeMap<Name, NodeId>,
    name: &Option<Name>,
    id: NodeId,
) -> Result<(), NoMemory>
    ensures ok { OnOk result (Enters index.old index.new name.now id) }
    ensures err { OnErr result (index.new.entries ≡ index.old.entries) }
{
    if let Some(own) = name {
        index.insert(*own, id)?;
    }
    Ok(())
}

/// Takes a node's name out, if it has one.
pub fn forget_name(index: &mut BTreeMap<Name, NodeId>, name: &Option<Name>)
    ensures { Forgets index.old index.new name.now }
{
    if let Some(own) = name {
        let _id = index.remove(own);
    }
}
