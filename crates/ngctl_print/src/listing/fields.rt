// The fields of a line: texts padded with blanks, numbers, and names that are read where they stand.
ghost use Rattle.std.specs.Prelude.{◌≡◌, ◌≤◌, ◌<◌, ◌+◌, ◌++◌, ◌==◌, length, drop, position, OnOk};
ghost use Rattle.std.specs.Fmt.{decimal};
ghost use Rattle.ng_message.specs.Fields.{field_text};
ghost use Rattle.ngctl_print.specs.listing.Fields.{left_in, column, hex_digit, eight_digits, name_at, number_at, or_unnamed};

use ng_base::NoMemory;
use ng_message::{NAME_LEN, u32_at};
use std::alloc::Global;

/// The bytes from `at` on.
pub(super) fn tail(bytes: &[u8], at: usize) -> &[u8]
    requires { at ≤ length bytes.now }
    ensures bytes { result.now ≡ drop at bytes.now }
    ensures len { at + length result.now ≡ length bytes.now }
{
    &bytes[at..]
}

/// The number of 32 bits at `at`, the lowest byte first. The field lies inside `bytes`.
#[tactic(auto, unfolding(crate::specs::listing::Fields::number_at))]
pub(super) fn number_at(bytes: &[u8], at: usize) -> u32
    requires { at + 4 ≤ length bytes.now }
    ensures { result ≡ number_at at bytes.now }
{
    u32_at(bytes, at)
}

/// The name in the 32 bytes at `at`: what stands before the first NUL, or all of them where there is
/// none. The field lies inside `bytes`.
pub(super) fn text_at(bytes: &[u8], at: usize) -> &[u8]
    requires { at + NAME_LEN ≤ length bytes.now }
    ensures { result.now ≡ name_at at bytes.now }
{
    text_of(&bytes[at..at + NAME_LEN])
}

/// What stands in a field before its first NUL, or all of it where there is none.
fn text_of(field: &[u8]) -> &[u8]
    ensures { result.now ≡ field_text field.now }
{
    let end = first_nul(field).unwrap_or(field.len());
    &field[..end]
}

/// The place of the first NUL.
fn first_nul(field: &[u8]) -> Option<usize>
    ensures { result ≡ position (λ byte. byte == 0) field.now }
{
    field.iter().position(|byte| *byte == 0)
}

/// The name, or what ngctl(8) prints where there is none.
pub(super) fn or_unnamed(name: &[u8]) -> &[u8]
    ensures { result.now ≡ or_unnamed name.now }
{
    match name {
        [] => b"<unnamed>",
        _ => name,
    }
}

/// Appends a text.
pub(super) fn put_text(out: &mut Vec<u8>, text: &[u8]) -> Result<(), NoMemory>
    ensures { OnOk result (out.new.items ≡ out.old.items ++ text.now) }
{
    out.extend_from_slice(text)?;
    Ok(())
}

/// Appends a text, and blanks up to that many places.
pub(super) fn put_left(out: &mut Vec<u8>, places: usize, text: &[u8]) -> Result<(), NoMemory>
    ensures { OnOk result (out.new.items ≡ out.old.items ++ left_in places text.now) }
{
    out.extend_from_slice(text)?;
    for _ in 0..places.saturating_sub(text.len()) {
        out.push(b' ')?;
    }
    Ok(())
}

/// Appends a text in that many places, and a blank.
pub(super) fn put_column(out: &mut Vec<u8>, places: usize, text: &[u8]) -> Result<(), NoMemory>
    ensures { OnOk result (out.new.items ≡ out.old.items ++ column places text.now) }
{
    put_left(out, places, text)?;
    out.push(b' ')?;
    Ok(())
}

/// Appends a number in decimal digits.
pub(super) fn put_decimal(alloc: Global, out: &mut Vec<u8>, number: u32) -> Result<(), NoMemory>
    ensures { OnOk result (out.new.items ≡ out.old.items ++ decimal number) }
{
    let text = format!(in alloc; "{number}")?;
    out.extend_from_slice(text.as_bytes())?;
    Ok(())
}

fn hex_digit(n: u32) -> u8
    requires { n < 16 }
    ensures { result ≡ hex_digit n }
{
    if n < 10 {
        b'0' + n as u8
    } else {
        b'a' + (n - 10) as u8
    }
}

/// A number in eight hexadecimal digits.
#[tactic(auto, unfolding(crate::specs::listing::Fields::eight_digits))]
pub(super) fn eight_digits(number: u32) -> [u8; 8]
    ensures { result ≡ eight_digits number }
{
    [
        hex_digit(number / 0x1000_0000 % 16),
        hex_digit(number / 0x100_0000 % 16),
        hex_digit(number / 0x10_0000 % 16),
        hex_digit(number / 0x1_0000 % 16),
        hex_digit(number / 0x1000 % 16),
        hex_digit(number / 0x100 % 16),
        hex_digit(number / 0x10 % 16),
        hex_digit(number % 16),
    ]
}

/// Appends a number in eight hexadecimal digits.
pub(super) fn put_eight_digits(out: &mut Vec<u8>, number: u32) -> Result<(), NoMemory>
    ensures { OnOk result (out.new.items ≡ out.old.items ++ eight_digits number) }
{
    let digits = eight_digits(number);
    out.extend_from_slice(&digits)?;
    Ok(())
}
