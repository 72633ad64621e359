// Ethernet addresses in a text.
ghost use Rattle.std.specs.Prelude.{◌≡◌, Option, option_map};
ghost use Rattle.ng_shape.specs.Values.{value_of};
ghost use Rattle.ng_parse.specs.Faults.{Follows};
ghost use Rattle.ng_parse.specs.Reading.{address_at};
ghost use Rattle.ng_parse.specs.Tokens.{address_in, group_in, next_group_in};

use crate::fault::{Fault, Why, fault_at};
use crate::tokens::split_word;
use ng_base::Stop;
use ng_shape::Tree;
use std::alloc::Global;

/// One or two hexadecimal digits at the front, and what follows them.
fn group_of(text: &[u8]) -> Option<(u8, &[u8])>
    ensures { option_map (λ x. (x.0, x.1.now)) result ≡ group_in text.now }
{
    let [first, rest @ ..] = text else {
        return None;
    };
    let high = char::from(*first).to_digit(16)?;
    let [second, behind @ ..] = rest else {
        return Some((high as u8, rest));
    };
    match char::from(*second).to_digit(16) {
        Some(low) => Some(((high * 16 + low) as u8, behind)),
        None => Some((high as u8, rest)),
    }
}

/// The same behind a colon.
fn next_group_of(text: &[u8]) -> Option<(u8, &[u8])>
    ensures { option_map (λ x. (x.0, x.1.now)) result ≡ next_group_in text.now }
{
    match text {
        [b':', behind @ ..] => group_of(behind),
        _ => None,
    }
}

/// The bytes that a word says.
fn address_of(word: &[u8]) -> Option<[u8; 6]>
    ensures { result ≡ address_in word.now }
{
    let (a, rest) = group_of(word)?;
    let (b, rest) = next_group_of(rest)?;
    let (c, rest) = next_group_of(rest)?;
    let (d, rest) = next_group_of(rest)?;
    let (e, rest) = next_group_of(rest)?;
    let (f, rest) = next_group_of(rest)?;
    match rest {
        [] => Some([a, b, c, d, e, f]),
        _ => None,
    }
}

/// An Ethernet address.
pub fn address_at(alloc: Global, text: &[u8]) -> Result<(Tree, &[u8]), Stop<Fault>>
    ensures { Follows (λ x. (value_of x.0, x.1.now)) result (address_at text.now) }
{
    let (word, rest) = split_word(text);
    let Some(bytes) = address_of(word) else {
        return Err(Stop::Fault(fault_at(Why::Unexpected, text)));
    };
    Ok((Tree::Text(Vec::from_slice(alloc, &bytes)?), rest))
}
