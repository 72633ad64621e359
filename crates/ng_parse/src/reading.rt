// Values in a text, from left to right.
ghost use Rattle.std.specs.Prelude.{◌≡◌, ◌≤◌, ◌<◌, ◌^◌, [], true, false, length, IfOk, IfSome, MatchOption, option_map};
ghost use Rattle.ng_shape.specs.Shape.{field_number, shape_of, fields_of, Struct};
ghost use Rattle.ng_shape.specs.Values.{member_of, members_of, value_of};
ghost use Rattle.ng_parse.specs.Ascii.{close_brace, close_bracket, open_bracket};
ghost use Rattle.ng_parse.specs.Tokens.{number_in, word};
ghost use Rattle.ng_parse.specs.Faults.{Follows};
ghost use Rattle.ng_parse.specs.Reading.{after_index, between, group, with_number, element_at, element_value, field_at, fresh, has, has_index};
ghost use Rattle.ng_parse.specs.Reading.{index_at, member_at, next_number, no_element, number_at, read_all, read_at, read_field, repeat};

use crate::addresses::address_at;
use crate::counting::fill_counts;
use crate::fault::{Fault, Why, fault_at, first_of};
use crate::integers::{signed_at, unsigned_at};
use crate::strings::string_at;
use crate::tokens::{behind_mark, number_of, skip_blanks, split_word};
use ng_base::Stop;
use ng_shape::{Field, Member, Shape, Tree, field_number};
use std::alloc::Global;

fn has(number: u64, members: &[Member]) -> bool
    ensures { result ≡ has number (members_of members.now) }
{
    for member in members {
        if member.number == number {
            return true;
        }
    }
    false
}

/// A member's number, where none has it yet.
fn fresh(text: &[u8], number: u64, members: &[Member]) -> Result<u64, Fault>
    ensures { result ≡ fresh text.now number (members_of members.now) }
{
    if has(number, members) {
        return Err(fault_at(Why::Twice, text));
    }
    Ok(number)
}

/// The number after the last member's.
fn next_number(members: &[Member]) -> u128
    ensures next { result ≡ next_number (members_of members.now) }
    ensures high { result ≤ 2 ^ 64 }
{
    match members {
        [] => 0,
        [.., last] => u128::from(last.number) + 1,
    }
}

/// An element's number, where it may stand.
fn number_at(count: u32, members: &[Member], text: &[u8], number: u128) -> Result<u64, Fault>
    ensures { result ≡ number_at count (members_of members.now) text.now number }
{
    if number >= u128::from(count) {
        return Err(fault_at(Why::TooMany, text));
    }
    fresh(text, number as u64, members)
}

/// The number that the word before an element says, where it may stand.
fn index_at(count: u32, members: &[Member], text: &[u8], word: &[u8]) -> Result<u64, Fault>
    ensures { result ≡ index_at count (members_of members.now) text.now (number_in word.now) }
{
    match number_of(word) {
        None => Err(fault_at(Why::Unexpected, text)),
        Some(number) => number_at(count, members, text, number),
    }
}

/// The word before the `=` that follows it, and what follows both, if so a text begins.
fn split_index(text: &[u8]) -> Option<(&[u8], &[u8])>
    ensures { MatchOption result (has_index text.now ≡ false)
        (λ x. (has_index text.now ≡ true) × (x.0.now ≡ word text.now) × (x.1.now ≡ after_index text.now)) }
{
    let (word, rest) = split_word(text);
    if word.is_empty() {
        return None;
    }
    match skip_blanks(rest) {
        [b'=', behind @ ..] => Some((word, skip_blanks(behind))),
        _ => None,
    }
}

/// No element stands here. A number may be an index, until the token behind it says otherwise.
fn no_element(text: &[u8]) -> Fault
    ensures { result ≡ no_element text.now (number_in (word text.now)) }
{
    let (word, rest) = split_word(text);
    match number_of(word) {
        None => fault_at(Why::Unexpected, text),
        Some(_) => fault_at(Why::Unexpected, skip_blanks(rest)),
    }
}

/// A value of that shape at the front.
#[cycle(read)]
#[tactic(auto, unfolding(crate::specs::Reading::read_at))]
fn value_at<'a>(
    alloc: Global,
    shape: &Shape,
    text: &'a [u8],
) -> Result<(Tree, &'a [u8]), Stop<Fault>>
    ensures { Follows (λ x. (value_of x.0, x.1.now)) result (read_at (shape_of shape.now) text.now) }
{
    match shape {
        Shape::Nothing => Ok((Tree::Absent, text)),
        Shape::UInt(bits) => unsigned_at(*bits, text),
        Shape::Int(bits) => signed_at(*bits, text),
        Shape::Hex(bits) => unsigned_at(*bits, text),
        Shape::Str(n) => string_at(alloc, *n, text),
        Shape::Ether => address_at(alloc, text),
        Shape::Struct(fields) => structure_at(alloc, fields, text),
        Shape::Array(count, element) => array_at(alloc, *count, element, text),
        Shape::Counted { max, element, .. } => array_at(alloc, *max, element, text),
    }
}

/// A structure.
#[cycle(read)]
#[tactic(auto, unfolding(crate::specs::Reading::between, crate::specs::Reading::read_at))]
fn structure_at<'a>(
    alloc: Global,
    fields: &[Field],
    text: &'a [u8],
) -> Result<(Tree, &'a [u8]), Stop<Fault>>
    ensures { Follows (λ x. (value_of x.0, x.1.now)) result (read_at (Struct (fields_of fields.now)) text.now) }
{
    let inside = behind_mark(b'{', text)?;
    let (given, rest) = fields_at(alloc, fields, inside)?;
    let members = fill_counts(alloc, fields, given)?;
    let left = text.len();
    Ok((Tree::Group { left, members }, rest))
}

/// The fields of a structure up to its closing mark.
#[cycle(read)]
fn fields_at<'a>(
    alloc: Global,
    fields: &[Field],
    text: &'a [u8],
) -> Result<(Vec<Member>, &'a [u8]), Stop<Fault>>
    ensures { let fs = fields_of fields.now in
        Follows (λ x. (members_of x.0.items, x.1.now)) result
        (repeat (member_at close_brace (field_at (field_number fs) (read_field fs))) (length text.now) [] text.now) }
{
    let mut members = Vec::new(alloc);
    let mut rest = text;
    for _ in 0..text.len() {
        let (field, after) = field_or_end(alloc, fields, &members, rest)?;
        rest = after;
        let Some(field) = field else {
            return Ok((members, rest));
        };
        members.push(field)?;
    }
    Err(Stop::Fault(fault_at(Why::Unexpected, rest)))
}

#[cycle(read)]
fn field_or_end<'a>(
    alloc: Global,
    fields: &[Field],
    members: &[Member],
    text: &'a [u8],
) -> Result<(Option<Member>, &'a [u8]), Stop<Fault>>
    ensures { let fs = fields_of fields.now in
        Follows (λ x. (option_map member_of x.0, x.1.now)) result
        (member_at close_brace (field_at (field_number fs) (read_field fs)) (members_of members.now) text.now) }
{
    let text = skip_blanks(text);
    if let [b'}', rest @ ..] = text {
        return Ok((None, rest));
    }
    let (field, rest) = field_at(alloc, fields, members, text)?;
    Ok((Some(field), rest))
}

/// A field: its name, `=` and its value.
#[cycle(read)]
#[tactic(auto, unfolding(crate::specs::Reading::field_at))]
fn field_at<'a>(
    alloc: Global,
    fields: &[Field],
    members: &[Member],
    text: &'a [u8],
) -> Result<(Member, &'a [u8]), Stop<Fault>>
    ensures { let fs = fields_of fields.now in
        Follows (λ x. (member_of x.0, x.1.now)) result
        (field_at (field_number fs) (read_field fs) (members_of members.now) text.now) }
{
    let (name, rest) = split_word(text);
    if name.is_empty() {
        return Err(Stop::Fault(fault_at(Why::Unexpected, text)));
    }
    let Some(number) = field_number(fields, name) else {
        return Err(Stop::Fault(fault_at(Why::UnknownField, text)));
    };
    if has(number, members) {
        return Err(Stop::Fault(fault_at(Why::Twice, text)));
    }
    let behind = behind_mark(b'=', skip_blanks(rest))?;
    let (tree, rest) = value_at(alloc, &fields[number as usize].shape, skip_blanks(behind))?;
    Ok((Member { number, tree }, rest))
}

/// An array of at most so many elements.
#[cycle(read)]
#[tactic(auto, unfolding(crate::specs::Reading::between))]
fn array_at<'a>(
    alloc: Global,
    count: u32,
    element: &Shape,
    text: &'a [u8],
) -> Result<(Tree, &'a [u8]), Stop<Fault>>
    ensures { Follows (λ x. (value_of x.0, x.1.now)) result
        (group text.now (λ ms. ms) (between open_bracket close_bracket (element_at count (read_at (shape_of element.now))) text.now)) }
{
    let inside = behind_mark(b'[', text)?;
    let (members, rest) = elements_at(alloc, count, element, inside)?;
    let left = text.len();
    Ok((Tree::Group { left, members }, rest))
}

/// The elements of an array up to its closing mark.
#[cycle(read)]
fn elements_at<'a>(
    alloc: Global,
    count: u32,
    element: &Shape,
    text: &'a [u8],
) -> Result<(Vec<Member>, &'a [u8]), Stop<Fault>>
    ensures { Follows (λ x. (members_of x.0.items, x.1.now)) result
        (repeat (member_at close_bracket (element_at count (read_at (shape_of element.now)))) (length text.now) [] text.now) }
{
    let mut members = Vec::new(alloc);
    let mut rest = text;
    for _ in 0..text.len() {
        let (item, after) = element_or_end(alloc, count, element, &members, rest)?;
        rest = after;
        let Some(item) = item else {
            return Ok((members, rest));
        };
        members.push(item)?;
    }
    Err(Stop::Fault(fault_at(Why::Unexpected, rest)))
}

#[cycle(read)]
fn element_or_end<'a>(
    alloc: Global,
    count: u32,
    element: &Shape,
    members: &[Member],
    text: &'a [u8],
) -> Result<(Option<Member>, &'a [u8]), Stop<Fault>>
    ensures { Follows (λ x. (option_map member_of x.0, x.1.now)) result
        (member_at close_bracket (element_at count (read_at (shape_of element.now))) (members_of members.now) text.now) }
{
    let text = skip_blanks(text);
    if let [b']', rest @ ..] = text {
        return Ok((None, rest));
    }
    let (item, rest) = element_at(alloc, count, element, members, text)?;
    Ok((Some(item), rest))
}

/// An element: a value, or its index, `=` and its value.
#[cycle(read)]
#[tactic(auto, unfolding(crate::specs::Reading::element_at))]
fn element_at<'a>(
    alloc: Global,
    count: u32,
    element: &Shape,
    members: &[Member],
    text: &'a [u8],
) -> Result<(Member, &'a [u8]), Stop<Fault>>
    ensures { Follows (λ x. (member_of x.0, x.1.now)) result
        (element_at count (read_at (shape_of element.now)) (members_of members.now) text.now) }
{
    let Some((word, behind)) = split_index(text) else {
        return next_element(alloc, count, element, members, text);
    };
    let number = index_at(count, members, text, word)?;
    let (tree, rest) = value_at(alloc, element, behind)?;
    Ok((Member { number, tree }, rest))
}

/// An element without an index.
#[cycle(read)]
fn next_element<'a>(
    alloc: Global,
    count: u32,
    element: &Shape,
    members: &[Member],
    text: &'a [u8],
) -> Result<(Member, &'a [u8]), Stop<Fault>>
    ensures { let given = members_of members.now in
        Follows (λ x. (member_of x.0, x.1.now)) result
        (with_number (number_at count given text.now (next_number given)) (element_value text.now (read_at (shape_of element.now) text.now))) }
{
    let value = element_value(alloc, element, text);
    match number_at(count, members, text, next_number(members)) {
        Ok(number) => {
            let (tree, rest) = value?;
            Ok((Member { number, tree }, rest))
        }
        Err(fault) => match value {
            Ok(_) => Err(Stop::Fault(fault)),
            Err(Stop::Fault(later)) => Err(Stop::Fault(first_of(fault, later))),
            Err(Stop::NoMemory) => Err(Stop::NoMemory),
        },
    }
}

/// A value at an element's front.
#[cycle(read)]
fn element_value<'a>(
    alloc: Global,
    element: &Shape,
    text: &'a [u8],
) -> Result<(Tree, &'a [u8]), Stop<Fault>>
    ensures { Follows (λ x. (value_of x.0, x.1.now)) result (element_value text.now (read_at (shape_of element.now) text.now)) }
{
    match value_at(alloc, element, text) {
        Ok((tree, rest)) => {
            if rest.len() == text.len() {
                return Err(Stop::Fault(no_element(text)));
            }
            Ok((tree, rest))
        }
        Err(Stop::Fault(fault)) => {
            if fault.why == Why::Unexpected && fault.left == text.len() {
                return Err(Stop::Fault(no_element(text)));
            }
            Err(Stop::Fault(fault))
        }
        Err(Stop::NoMemory) => Err(Stop::NoMemory),
    }
}

/// The value that all of a text says, before its counts are looked at.
#[tactic(auto, unfolding(crate::specs::Reading::read_all))]
pub fn read_all(alloc: Global, shape: &Shape, text: &[u8]) -> Result<Tree, Stop<Fault>>
    ensures { Follows (λ tree. value_of tree) result (read_all (shape_of shape.now) text.now) }
{
    let (tree, rest) = value_at(alloc, shape, skip_blanks(text))?;
    let rest = skip_blanks(rest);
    if !rest.is_empty() {
        return Err(Stop::Fault(fault_at(Why::Unexpected, rest)));
    }
    Ok(tree)
}
