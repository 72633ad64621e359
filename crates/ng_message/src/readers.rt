// Fields that are read where they stand.
ghost use Rattle.std.specs.Prelude.{◌≡◌, ◌≢◌, ◌≤◌, ◌+◌, ◌==◌, [], length, drop, position, slice_range, MatchResult, MatchOption, Some, None};
ghost use Rattle.byteorder.specs.Endian.{little_bytes, little_number};
ghost use Rattle.ng_base.specs.Name.{name_fault};
ghost use Rattle.ng_message.specs.Fields.{field_text};

use crate::writers::NAME_LEN;
use byteorder::{ByteOrder, LittleEndian};
use ng_base::{Name, NameFault};

/// The number of 16 bits that stands at `at`, the lowest byte first. The field lies inside `args`.
pub fn u16_at(args: &[u8], at: usize) -> u16
    requires { at + 2 ≤ length args.now }
    ensures value { result ≡ little_number 2 (drop at args.now) }
    ensures bytes { little_bytes 2 result ≡ slice_range args.now at (at + 2) }
{
    LittleEndian::read_u16(&args[at..])
}

/// The number of 32 bits that stands at `at`, the lowest byte first. The field lies inside `args`.
pub fn u32_at(args: &[u8], at: usize) -> u32
    requires { at + 4 ≤ length args.now }
    ensures value { result ≡ little_number 4 (drop at args.now) }
    ensures bytes { little_bytes 4 result ≡ slice_range args.now at (at + 4) }
{
    LittleEndian::read_u32(&args[at..])
}

/// The number of 64 bits that stands at `at`, the lowest byte first. The field lies inside `args`.
pub fn u64_at(args: &[u8], at: usize) -> u64
    requires { at + 8 ≤ length args.now }
    ensures value { result ≡ little_number 8 (drop at args.now) }
    ensures bytes { little_bytes 8 result ≡ slice_range args.now at (at + 8) }
{
    LittleEndian::read_u64(&args[at..])
}

/// The name in the 32 bytes at `at`: what stands before the first NUL, or all 32 bytes where there is
/// none. `None` exactly where that is empty. The field lies inside `args`.
///
/// # Errors
/// What `Name::read` answers of it: `TooLong` with 32 where there is no NUL, `BadByte` with the place
/// of the first byte that no name may have. Never `Empty`.
pub fn name_at(args: &[u8], at: usize) -> Result<Option<Name>, NameFault>
    requires { at + NAME_LEN ≤ length args.now }
    ensures { let text = field_text (slice_range args.now at (at + 32)) in
        MatchResult result
        (λ found. MatchOption found (text ≡ []) (λ name. (name ≡ text) × (name_fault text ≡ None)))
        (λ fault. (text ≢ []) × (name_fault text ≡ Some fault)) }
{
    let text = text_of(&args[at..at + NAME_LEN]);
    if text.is_empty() {
        return Ok(None);
    }
    let name = Name::read(text)?;
    Ok(Some(name))
}

/// What stands in a field before its first NUL, or all of it where there is none.
fn text_of(field: &[u8]) -> &[u8]
    ensures { result.now ≡ field_text field.now }
{
    let end = first_nul(field).unwrap_or(field.len());
    &field[..end]
}

/// The place of the first NUL.
fn first_nul(field: &[u8]) -> Option<usize>
    ensures { result ≡ position (λ byte. byte == 0) field.now }
{
    field.iter().position(|byte| *byte == 0)
}
