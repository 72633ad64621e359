// Integers in a text.
ghost use Rattle.std.specs.Prelude.{◌≡◌, ◌≤◌, ◌<◌, ◌^◌};
ghost use Rattle.ng_shape.specs.Values.{value_of};
ghost use Rattle.ng_parse.specs.Faults.{Follows};
ghost use Rattle.ng_parse.specs.Reading.{limit, signed_at, unsigned_at};

use crate::fault::{Fault, Why, fault_at};
use crate::tokens::{number_of, signed_number_of, split_word};
use ng_base::Stop;
use ng_shape::Tree;

/// What integers of so many bits are below.
pub fn limit(bits: u8) -> u128
    ensures limit { result ≡ limit bits }
    ensures low { 0 < result }
    ensures high { result ≤ 2 ^ 64 }
{
    match bits {
        16 => 1 << 16,
        32 => 1 << 32,
        64 => 1 << 64,
        _ => 1 << 8,
    }
}

/// An integer without a sign.
pub fn unsigned_at(bits: u8, text: &[u8]) -> Result<(Tree, &[u8]), Stop<Fault>>
    ensures { Follows (λ x. (value_of x.0, x.1.now)) result (unsigned_at bits text.now) }
{
    let (word, rest) = split_word(text);
    let limit = limit(bits);
    let left = text.len();
    match number_of(word) {
        None => Err(Stop::Fault(fault_at(Why::Unexpected, text))),
        Some(number) => {
            if number >= limit {
                return Err(Stop::Fault(fault_at(Why::Range, text)));
            }
            let value = number as u64;
            Ok((Tree::Number { left, value }, rest))
        }
    }
}

/// An integer with a sign, as its two's complement.
pub fn signed_at(bits: u8, text: &[u8]) -> Result<(Tree, &[u8]), Stop<Fault>>
    ensures { Follows (λ x. (value_of x.0, x.1.now)) result (signed_at bits text.now) }
{
    let (word, rest) = split_word(text);
    let limit = limit(bits);
    let left = text.len();
    let Some((is_negative, number)) = signed_number_of(word) else {
        return Err(Stop::Fault(fault_at(Why::Unexpected, text)));
    };
    if is_negative {
        if 2 * number > limit {
            return Err(Stop::Fault(fault_at(Why::Range, text)));
        }
        let value = ((limit - number) % limit) as u64;
        return Ok((Tree::Number { left, value }, rest));
    }
    if 2 * number >= limit {
        return Err(Stop::Fault(fault_at(Why::Range, text)));
    }
    let value = number as u64;
    Ok((Tree::Number { left, value }, rest))
}
