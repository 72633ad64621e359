// Strings in a text.
ghost use Rattle.std.specs.Prelude.{◌≡◌, [], length};
ghost use Rattle.ng_shape.specs.Values.{value_of};
ghost use Rattle.ng_parse.specs.Faults.{Follows};
ghost use Rattle.ng_parse.specs.Reading.{char_at, escape_at, escape_fault, repeat, string_at, string_char};
ghost use Rattle.ng_base.specs.declared.memory.Stop.TheVariants.{Fault as At};

use crate::fault::{Fault, Why, fault_at};
use crate::tokens::behind_mark;
use ng_base::Stop;
use ng_shape::Tree;
use std::alloc::Global;

/// An escape is wrong at its backslash, which stands before the text.
fn wrong_escape(text: &[u8]) -> Stop<Fault>
    ensures { result ≡ At (escape_fault text.now) }
{
    Stop::Fault(Fault {
        why: Why::Unexpected,
        left: text.len() + 1,
    })
}

/// The byte behind a backslash that stands before the text.
fn escape_of(text: &[u8]) -> Result<(Option<u8>, &[u8]), Stop<Fault>>
    ensures { Follows (λ x. (x.0, x.1.now)) result (escape_at text.now) }
{
    match text {
        [b'"', rest @ ..] => Ok((Some(b'"'), rest)),
        [b'\\', rest @ ..] => Ok((Some(b'\\'), rest)),
        [b'n', rest @ ..] => Ok((Some(b'\n'), rest)),
        [b't', rest @ ..] => Ok((Some(b'\t'), rest)),
        [b'r', rest @ ..] => Ok((Some(b'\r'), rest)),
        [b'x', high, low, rest @ ..] => {
            match (
                char::from(*high).to_digit(16),
                char::from(*low).to_digit(16),
            ) {
                (Some(high), Some(low)) => Ok((Some((high * 16 + low) as u8), rest)),
                _ => Err(wrong_escape(text)),
            }
        }
        _ => Err(wrong_escape(text)),
    }
}

/// The byte of a string at the front, or none at the closing quote.
fn char_of(text: &[u8]) -> Result<(Option<u8>, &[u8]), Stop<Fault>>
    ensures { Follows (λ x. (x.0, x.1.now)) result (char_at text.now) }
{
    match text {
        [] => Err(Stop::Fault(fault_at(Why::Unexpected, text))),
        [b'"', rest @ ..] => Ok((None, rest)),
        [b'\\', rest @ ..] => escape_of(rest),
        [byte, rest @ ..] => Ok((Some(*byte), rest)),
    }
}

/// The same in a string of fewer than `n` bytes, none of them zero, behind those so far.
fn char_in<'a>(
    n: u32,
    whole: &[u8],
    so_far: &[u8],
    text: &'a [u8],
) -> Result<(Option<u8>, &'a [u8]), Stop<Fault>>
    ensures { Follows (λ x. (x.0, x.1.now)) result (string_char n whole.now so_far.now text.now) }
{
    let (byte, rest) = char_of(text)?;
    let Some(byte) = byte else {
        return Ok((None, rest));
    };
    if byte == 0 || so_far.len() + 1 >= n as usize {
        return Err(Stop::Fault(fault_at(Why::Range, whole)));
    }
    Ok((Some(byte), rest))
}

/// The bytes of a string up to its closing quote, and what follows it.
fn chars_of<'a>(
    alloc: Global,
    n: u32,
    whole: &[u8],
    text: &'a [u8],
) -> Result<(Vec<u8>, &'a [u8]), Stop<Fault>>
    ensures { Follows (λ x. (x.0.items, x.1.now)) result
        (repeat (string_char n whole.now) (length text.now) [] text.now) }
{
    let mut chars = Vec::new(alloc);
    let mut rest = text;
    for _ in 0..text.len() {
        let (byte, after) = char_in(n, whole, &chars, rest)?;
        rest = after;
        let Some(byte) = byte else {
            return Ok((chars, rest));
        };
        chars.push(byte)?;
    }
    Err(Stop::Fault(fault_at(Why::Unexpected, rest)))
}

/// A string of fewer than `n` bytes, none of them zero.
#[tactic(auto, unfolding(crate::specs::Reading::string_at))]
pub fn string_at(alloc: Global, n: u32, text: &[u8]) -> Result<(Tree, &[u8]), Stop<Fault>>
    ensures { Follows (λ x. (value_of x.0, x.1.now)) result (string_at n text.now) }
{
    let inside = behind_mark(b'"', text)?;
    let (chars, rest) = chars_of(alloc, n, text, inside)?;
    Ok((Tree::Text(chars), rest))
}
