// Tokens: blanks, words, marks, and the numbers that words say.
ghost use Rattle.std.specs.Prelude.{◌≡◌, ◌≤◌, ◌^◌, ℕ, Bool, drop, length, min, option_map};
ghost use Rattle.ng_parse.specs.Faults.{Follows};
ghost use Rattle.ng_parse.specs.Reading.{mark_at};
ghost use Rattle.ng_parse.specs.Tokens.{after_word, digits_in, number_in, signed_in, skip_blanks, word};

use crate::fault::{Fault, Why, fault_at};
use ng_base::Stop;
use ng_shape::is_word_byte;

/// The text without the blanks at its front.
pub fn skip_blanks(text: &[u8]) -> &[u8]
    ensures { result.now ≡ skip_blanks text.now }
{
    let mut rest = text;
    while let [byte, after @ ..] = rest {
        if *byte != b' ' && *byte != b'\t' {
            return rest;
        }
        rest = after;
    }
    rest
}

/// How long the word at the front is.
fn word_len(text: &[u8]) -> usize
    ensures within { result ≤ length text.now }
    ensures len { result ≡ length (word text.now) }
{
    let mut len = 0;
    for byte in text {
        if !is_word_byte(*byte) {
            return len;
        }
        len += 1;
    }
    len
}

/// The word at the front, and what follows it.
pub fn split_word(text: &[u8]) -> (&[u8], &[u8])
    ensures front { result.0.now ≡ word text.now }
    ensures behind { result.1.now ≡ after_word text.now }
{
    text.split_at(word_len(text))
}

/// What stands behind a mark.
pub fn behind_mark(mark: u8, text: &[u8]) -> Result<&[u8], Stop<Fault>>
    ensures { Follows (λ x. x.now) result (mark_at mark text.now) }
{
    match text {
        [byte, behind @ ..] if *byte == mark => Ok(behind),
        _ => Err(Stop::Fault(fault_at(Why::Unexpected, text))),
    }
}

/// The number that digits say, as far as it is below 2^64, and otherwise 2^64.
fn digits_of(radix: u32, digits: &[u8]) -> Option<u128>
    requires low { 2 ≤ radix }
    requires high { radix ≤ 16 }
    ensures { result ≡ option_map (λ n. min n (2 ^ 64)) (digits_in radix digits.now) }
{
    if digits.is_empty() {
        return None;
    }
    let mut number: u128 = 0;
    for byte in digits {
        let digit = char::from(*byte).to_digit(radix)?;
        number = (number * u128::from(radix) + u128::from(digit)).min(1 << 64);
    }
    Some(number)
}

/// The number that a word says, as far as it is below 2^64, and otherwise 2^64.
pub fn number_of(word: &[u8]) -> Option<u128>
    ensures { result ≡ option_map (λ n. min n (2 ^ 64)) (number_in word.now) }
{
    match word {
        [b'0'] => Some(0),
        [b'0', b'x', digits @ ..] => {
            if digits.len() <= 16 {
                digits_of(16, digits)
            } else {
                None
            }
        }
        [b'0', digits @ ..] => digits_of(8, digits),
        _ => digits_of(10, word),
    }
}

/// Whether a word says a negative number, and the number without its sign, as far as it is below 2^64.
pub fn signed_number_of(word: &[u8]) -> Option<(bool, u128)>
    ensures { result ≡ option_map (λ x. (x.0, min x.1 (2 ^ 64))) (signed_in word.now) }
{
    match word {
        [b'-', digits @ ..] => Some((true, number_of(digits)?)),
        _ => Some((false, number_of(word)?)),
    }
}
