// The words in which endings are told.
ghost use Rattle.std.specs.Prelude.{◌≡◌, ◌++◌, ◌∷◌, [], string_bytes, IfOk, OnOk};
ghost use Rattle.ng_trace.specs.Text.{address_by, cause_of, cause_text, door_text, error_of, label_text, place_text, verb};

use crate::{Ending, Label, Place};
use ng_base::{Cause, Name, NoMemory, NodeId};
use ng_machine::Door;
use std::alloc::Global;

pub(crate) fn verb(why: Ending) -> &'static str
    ensures { result.now ≡ verb why }
{
    match why {
        Ending::Ended => "ended",
        Ending::Refused(_) => "refused",
        Ending::Lost(_) => "lost",
        Ending::Dropped(_) => "dropped",
    }
}

fn cause_text(cause: Cause) -> &'static str
    ensures { result.now ≡ cause_text cause }
{
    match cause {
        Cause::NodeGone => ": node gone",
        Cause::HookGone => ": hook gone",
        Cause::Budget => ": budget",
        Cause::NoPeer => ": no peer",
        Cause::Full => ": full",
        Cause::Spool => ": spool",
    }
}

/// Why it ended so, as far as its cause says.
pub(crate) fn cause_of(why: Ending) -> &'static str
    ensures { result.now ≡ cause_of why }
{
    match why {
        Ending::Ended | Ending::Refused(_) => "",
        Ending::Lost(cause) | Ending::Dropped(cause) => cause_text(cause),
    }
}

fn put_address(
    alloc: Global,
    id: NodeId,
    name: &Option<Name>,
    out: &mut Vec<u8>,
) -> Result<(), NoMemory>
    ensures { OnOk result (out.new.items ≡ out.old.items ++ address_by id name.now) }
{
    match name {
        Some(name) => out.extend_from_slice(name.bytes())?,
        None => {
            let number = id.0;
            let address = format!(in alloc; "[{number:x}]")?;
            out.extend_from_slice(address.as_bytes())?;
        }
    }
    Ok(())
}

/// Appends a node's address and its type.
#[tactic(auto, unfolding(crate::specs::Text::label_text))]
pub(crate) fn put_label(alloc: Global, label: &Label, out: &mut Vec<u8>) -> Result<(), NoMemory>
    ensures { OnOk result (out.new.items ≡ out.old.items ++ label_text label.now) }
{
    put_address(alloc, label.node, &label.name, out)?;
    out.extend_from_slice(b": (")?;
    out.extend_from_slice(label.kind.text().as_bytes())?;
    out.extend_from_slice(b")")?;
    Ok(())
}

fn put_door(door: &Door, out: &mut Vec<u8>) -> Result<(), NoMemory>
    ensures { OnOk result (out.new.items ≡ out.old.items ++ door_text door.now) }
{
    match door {
        Door::Wire => out.extend_from_slice(b"the wire")?,
        Door::Hook(name) => out.extend_from_slice(name.bytes())?,
    }
    Ok(())
}

// The error of a refusal, with its text.
fn put_error(alloc: Global, why: Ending, out: &mut Vec<u8>) -> Result<(), NoMemory>
    ensures { OnOk result (out.new.items ≡ out.old.items ++ error_of why) }
{
    let Ending::Refused(errno) = why else {
        return Ok(());
    };
    let number = errno.0;
    let error = format!(in alloc; ": error {number}: ")?;
    out.extend_from_slice(error.as_bytes())?;
    out.extend_from_slice(errno.text().as_bytes())?;
    Ok(())
}

/// Appends where a copy ended, and how.
#[tactic(auto, unfolding(crate::specs::Text::place_text))]
pub(crate) fn put_place(alloc: Global, place: &Place, out: &mut Vec<u8>) -> Result<(), NoMemory>
    ensures { OnOk result (out.new.items ≡ out.old.items ++ place_text place.now) }
{
    out.extend_from_slice(verb(place.why).as_bytes())?;
    out.extend_from_slice(b" at ")?;
    put_label(alloc, &place.label, out)?;
    out.extend_from_slice(b", came by ")?;
    put_door(&place.door, out)?;
    out.extend_from_slice(cause_of(place.why).as_bytes())?;
    put_error(alloc, place.why, out)
}
