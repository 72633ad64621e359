// Fields that are put at the end.
ghost use Rattle.std.specs.Prelude.{◌≡◌, ◌≤◌, ◌++◌, length, take, OnOk, OnErr};
ghost use Rattle.std.specs.Option.{option_copied};
ghost use Rattle.byteorder.specs.Endian.{little_bytes};
ghost use Rattle.ng_message.specs.Fields.{name_field, text_or_empty};

use byteorder::{ByteOrder, LittleEndian};
use ng_base::{Name, NoMemory};

/// The bytes of a field that holds a name (NG_NODESIZ, NG_HOOKSIZ and NG_TYPESIZ of netgraph(4)).
pub const NAME_LEN: usize = 32;

/// Appends a number of 16 bits, the lowest byte first.
///
/// # Errors
/// `NoMemory` where memory ran out, and for nothing else; `out` is then as before.
pub fn put_u16(out: &mut Vec<u8>, value: u16) -> Result<(), NoMemory>
    ensures ok { OnOk result (out.new.items ≡ out.old.items ++ little_bytes 2 value) }
    ensures err { OnErr result (out.new.items ≡ out.old.items) }
{
    let mut field = [0u8; 2];
    LittleEndian::write_u16(&mut field, value);
    out.extend_from_slice(&field)?;
    Ok(())
}

/// Appends a number of 32 bits, the lowest byte first.
///
/// # Errors
/// `NoMemory` where memory ran out, and for nothing else; `out` is then as before.
pub fn put_u32(out: &mut Vec<u8>, value: u32) -> Result<(), NoMemory>
    ensures ok { OnOk result (out.new.items ≡ out.old.items ++ little_bytes 4 value) }
    ensures err { OnErr result (out.new.items ≡ out.old.items) }
{
    let mut field = [0u8; 4];
    LittleEndian::write_u32(&mut field, value);
    out.extend_from_slice(&field)?;
    Ok(())
}

/// Appends a number of 64 bits, the lowest byte first.
///
/// # Errors
/// `NoMemory` where memory ran out, and for nothing else; `out` is then as before.
pub fn put_u64(out: &mut Vec<u8>, value: u64) -> Result<(), NoMemory>
    ensures ok { OnOk result (out.new.items ≡ out.old.items ++ little_bytes 8 value) }
    ensures err { OnErr result (out.new.items ≡ out.old.items) }
{
    let mut field = [0u8; 8];
    LittleEndian::write_u64(&mut field, value);
    out.extend_from_slice(&field)?;
    Ok(())
}

/// Appends a name in 32 bytes: its bytes, and NULs behind them. Without a name that is 32 NULs.
///
/// # Errors
/// `NoMemory` where memory ran out, and for nothing else; `out` is then as before.
pub fn put_name(out: &mut Vec<u8>, name: Option<&Name>) -> Result<(), NoMemory>
    ensures ok { OnOk result (out.new.items ≡ out.old.items ++ name_field (text_or_empty (option_copied name.entry))) }
    ensures err { OnErr result (out.new.items ≡ out.old.items) }
{
    match name {
        Some(name) => put_text(out, name.bytes()),
        None => put_text(out, &[]),
    }
}

/// Appends a text of at most 32 bytes, and NULs behind it up to 32 bytes.
pub(crate) fn put_text(out: &mut Vec<u8>, text: &[u8]) -> Result<(), NoMemory>
    requires { length text.now ≤ 32 }
    ensures ok { OnOk result (out.new.items ≡ out.old.items ++ name_field text.now) }
    ensures err { OnErr result (out.new.items ≡ out.old.items) }
{
    out.extend_from_slice(&padded(text))?;
    Ok(())
}

/// The text and NULs behind it, 32 bytes in all.
fn padded(text: &[u8]) -> [u8; NAME_LEN]
    requires { length text.now ≤ 32 }
    ensures { result ≡ name_field text.now }
{
    let mut field = [0u8; NAME_LEN];
    field[..text.len()].copy_from_slice(text);
    field
}

/// Hands on how several appends went. Where one failed, it takes back all that stands in `out` from
/// `start` on.
pub(crate) fn or_as_before(
    out: &mut Vec<u8>,
    start: usize,
    done: Result<(), NoMemory>,
) -> Result<(), NoMemory>
    ensures same { result ≡ done }
    ensures ok { OnOk result (out.new.items ≡ out.old.items) }
    ensures err { OnErr result (out.new.items ≡ take start out.old.items) }
{
    if done.is_err() {
        out.truncate(start);
    }
    done
}
