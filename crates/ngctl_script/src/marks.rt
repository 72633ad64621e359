// Marks, and the numbers of marks and bytes.
ghost use Rattle.std.specs.Prelude.{◌≡◌, ◌≤◌, List, ℕ, min, option_map};
ghost use Rattle.ng_parse.specs.Tokens.{digits_in, number_in};
ghost use Rattle.ngctl_script.specs.Lines.{is_padded as is_padded_text, mark_of};
ghost use Rattle.ngctl_script.specs.Forms.{byte_of};

use crate::When;

const MAX_MARK: u32 = 1_000_000;

/// The number that digits say, as far as it is at most 1,000,000, and otherwise 1,000,001.
fn digits_of(radix: u32, digits: &[u8]) -> Option<u32>
    requires low { 2 ≤ radix }
    requires high { radix ≤ 16 }
    ensures { result ≡ option_map (λ n. min n 1000001) (digits_in radix digits.now) }
{
    if digits.is_empty() {
        return None;
    }
    let mut number: u32 = 0;
    for byte in digits {
        let digit = char::from(*byte).to_digit(radix)?;
        number = (number * radix + digit).min(1_000_001);
    }
    Some(number)
}

fn is_padded(text: &[u8]) -> bool
    ensures { result ≡ is_padded_text text.now }
{
    match text {
        [b'0', _, ..] => true,
        _ => false,
    }
}

/// The mark behind the `@`: `end`, or a number up to 1,000,000 without a sign, and without a zero in front of others.
pub(crate) fn read_mark(text: &[u8]) -> Option<When>
    ensures { result ≡ mark_of text.now }
{
    if text == b"end".as_slice() {
        return Some(When::Late);
    }
    if is_padded(text) {
        return None;
    }
    let number = digits_of(10, text)?;
    if number <= MAX_MARK {
        Some(When::After(number))
    } else {
        None
    }
}

/// The number that a word says, as far as it is at most 1,000,000, and otherwise 1,000,001: decimal digits of which the
/// first isn't 0, `0x` and up to 16 hexadecimal digits, or `0` and octal digits.
fn number_of(word: &[u8]) -> Option<u32>
    ensures { result ≡ option_map (λ n. min n 1000001) (number_in word.now) }
{
    match word {
        [b'0'] => Some(0),
        [b'0', b'x', digits @ ..] => {
            if digits.len() <= 16 {
                digits_of(16, digits)
            } else {
                None
            }
        }
        [b'0', digits @ ..] => digits_of(8, digits),
        _ => digits_of(10, word),
    }
}

/// The byte that a word says.
pub(crate) fn read_byte(word: &[u8]) -> Option<u8>
    ensures { result ≡ byte_of (number_in word.now) }
{
    u8::try_from(number_of(word)?).ok()
}
