// Values from bytes.
ghost use Rattle.std.specs.Prelude.{◌≡◌, ◌++◌, [], length, IfOk, OnOk};
ghost use Rattle.ng_shape.specs.Shape.{shape_of, fields_of, Struct};
ghost use Rattle.ng_shape.specs.Values.{count_in, members_of, value_of};
ghost use Rattle.ng_shape.specs.Layout.{counts_nothing, width as width_of};
ghost use Rattle.ng_shape.specs.Following.{Follows};
ghost use Rattle.ng_shape.specs.Decoding.{IsUnlessNoMemory, address_in, as_group, before_nul, given, group_value, has_other_than_zero, take_exactly};
ghost use Rattle.ng_shape.specs.Decoding.{number_in, number_value, read_fields, array_in, text_in, value_from, value_in};

use crate::layout::{ADDRESS_LEN, end_gap, gap, width};
use crate::members::find_count;
use crate::{BytesFault, Field, Member, Shape, Tree};
use byteorder::{ByteOrder, LittleEndian};
use ng_base::{NoMemory, Stop};
use std::alloc::Global;

/// So many bytes are missing.
#[derive(Clone, Copy, Debug, PartialEq, Eq)]
pub struct Missing(pub u32);

/// The structure that a value stands in: its fields, the members that were read, and how many bytes
/// there were from its front on.
#[derive(Clone, Copy)]
struct Around<'a> {
    fields: &'a [Field],
    members: &'a [Member],
    front: usize,
}

/// Takes so many bytes from the front, and leaves those behind them.
#[tactic(auto, unfolding(crate::specs::Decoding::take_exactly))]
fn take_exactly(bytes: &[u8], count: u32) -> Result<(&[u8], &[u8]), Stop<Missing>>
    ensures take_exactly { Follows (λ x. (x.0.now, x.1.now)) result (take_exactly count bytes.now) }
    ensures len { IfOk result (λ x. length x.0.now ≡ count) }
{
    let count = count as usize;
    if bytes.len() < count {
        let missing = (count - bytes.len()) as u32;
        return Err(Stop::Fault(Missing(missing)));
    }
    Ok(bytes.split_at(count))
}

fn number_tree(value: u64) -> Tree
    ensures { value_of result ≡ number_value value }
{
    if value == 0 {
        Tree::Absent
    } else {
        Tree::Number { left: 0, value }
    }
}

/// An integer of so many bits, behind its padding.
#[tactic(auto, unfolding(crate::specs::Decoding::number_in))]
fn number_from(bytes: &[u8], front: usize, bits: u8) -> Result<(Tree, &[u8]), Stop<Missing>>
    ensures { Follows (λ x. (value_of x.0, x.1.now)) result (number_in (width_of bits) front bytes.now) }
{
    let width = width(bits);
    let padding = gap(width, front.saturating_sub(bytes.len()));
    let (_, rest) = take_exactly(bytes, padding as u32)?;
    let (digits, rest) = take_exactly(rest, width as u32)?;
    Ok((number_tree(LittleEndian::read_uint(digits, width)), rest))
}

/// What stands before the first NUL.
fn before_nul(text: &[u8]) -> &[u8]
    ensures { result.now ≡ before_nul text.now }
{
    let mut len = 0;
    for byte in text {
        if *byte == 0 {
            return &text[..len];
        }
        len += 1;
    }
    text
}

/// A string in so many bytes.
#[tactic(auto, unfolding(crate::specs::Decoding::text_in))]
fn text_from(alloc: Global, bytes: &[u8], len: u32) -> Result<(Tree, &[u8]), Stop<Missing>>
    ensures { Follows (λ x. (value_of x.0, x.1.now)) result (text_in len bytes.now) }
{
    let (text, rest) = take_exactly(bytes, len)?;
    let text = before_nul(text);
    if text.is_empty() {
        return Ok((Tree::Absent, rest));
    }
    Ok((Tree::Text(Vec::from_slice(alloc, text)?), rest))
}

fn has_other_than_zero(bytes: &[u8]) -> bool
    ensures { result ≡ has_other_than_zero bytes.now }
{
    bytes.iter().any(|byte| *byte != 0)
}

/// An Ethernet address.
#[tactic(auto, unfolding(crate::specs::Decoding::address_in))]
fn address_from(alloc: Global, bytes: &[u8]) -> Result<(Tree, &[u8]), Stop<Missing>>
    ensures { Follows (λ x. (value_of x.0, x.1.now)) result (address_in bytes.now) }
{
    let (address, rest) = take_exactly(bytes, ADDRESS_LEN)?;
    if !has_other_than_zero(address) {
        return Ok((Tree::Absent, rest));
    }
    Ok((Tree::Text(Vec::from_slice(alloc, address)?), rest))
}

fn group_tree(members: Vec<Member>) -> Tree
    ensures { value_of result ≡ group_value (members_of members.items) }
{
    if members.is_empty() {
        return Tree::Absent;
    }
    Tree::Group { left: 0, members }
}

/// Adds a member, unless it is nothing.
fn push_given(members: &mut Vec<Member>, number: u64, tree: Tree) -> Result<(), NoMemory>
    ensures { OnOk result (members_of members.new.items ≡ members_of members.old.items ++ given number (value_of tree)) }
{
    if tree.is_absent() {
        return Ok(());
    }
    members.push(Member { number, tree })?;
    Ok(())
}

/// A value from the front of the bytes, and the bytes behind it.
#[cycle(read)]
#[tactic(auto, unfolding(crate::specs::Decoding::value_in))]
fn value_in<'a>(
    alloc: Global,
    around: Around<'_>,
    shape: &Shape,
    bytes: &'a [u8],
) -> Result<(Tree, &'a [u8]), Stop<Missing>>
    ensures { let counts = count_in (fields_of around.entry.fields.now) (members_of around.entry.members.now) in
        Follows (λ x. (value_of x.0, x.1.now)) result (value_in (shape_of shape.now) counts around.entry.front bytes.now) }
{
    match shape {
        Shape::Nothing => Ok((Tree::Absent, bytes)),
        Shape::UInt(bits) => number_from(bytes, around.front, *bits),
        Shape::Int(bits) => number_from(bytes, around.front, *bits),
        Shape::Hex(bits) => number_from(bytes, around.front, *bits),
        Shape::Str(len) => text_from(alloc, bytes, *len),
        Shape::Ether => address_from(alloc, bytes),
        Shape::Struct(fields) => structure_from(alloc, fields, bytes),
        Shape::Array(count, element) => array_from(
            alloc,
            around,
            element,
            u64::from(*count),
            bytes,
        ),
        Shape::Counted { by, element, .. } => {
            let count = find_count(around.fields, around.members, by);
            array_from(alloc, around, element, count, bytes)
        }
    }
}

/// A structure, with the padding at its end.
#[cycle(read)]
#[tactic(auto, unfolding(crate::specs::Decoding::value_in))]
fn structure_from<'a>(
    alloc: Global,
    fields: &[Field],
    bytes: &'a [u8],
) -> Result<(Tree, &'a [u8]), Stop<Missing>>
    ensures { Follows (λ x. (value_of x.0, x.1.now)) result (value_in (Struct (fields_of fields.now)) counts_nothing 0 bytes.now) }
{
    let (members, rest) = fields_from(alloc, fields, bytes)?;
    let padding = end_gap(fields, bytes.len().saturating_sub(rest.len()));
    let (_, rest) = take_exactly(rest, padding as u32)?;
    Ok((group_tree(members), rest))
}

/// The fields of a structure.
#[cycle(read)]
#[tactic(auto, unfolding(crate::specs::Decoding::read_fields))]
fn fields_from<'a>(
    alloc: Global,
    fields: &[Field],
    bytes: &'a [u8],
) -> Result<(Vec<Member>, &'a [u8]), Stop<Missing>>
    ensures { let fs = fields_of fields.now in
        Follows (λ x. (members_of x.0.items, x.1.now)) result (read_fields fs fs 0 [] (length bytes.now) bytes.now) }
{
    let mut members = Vec::new(alloc);
    let mut rest = bytes;
    let mut number = 0;
    for field in fields {
        let around = Around {
            fields,
            members: &members,
            front: bytes.len(),
        };
        let (tree, after) = value_in(alloc, around, &field.shape, rest)?;
        push_given(&mut members, number, tree)?;
        rest = after;
        number += 1;
    }
    Ok((members, rest))
}

/// So many elements.
#[cycle(read)]
#[tactic(auto, unfolding(crate::specs::Decoding::array_in))]
fn array_from<'a>(
    alloc: Global,
    around: Around<'_>,
    element: &Shape,
    count: u64,
    bytes: &'a [u8],
) -> Result<(Tree, &'a [u8]), Stop<Missing>>
    ensures { let counts = count_in (fields_of around.entry.fields.now) (members_of around.entry.members.now) in
        Follows (λ x. (value_of x.0, x.1.now)) result (as_group (array_in (value_in (shape_of element.now) counts around.entry.front) 0 count [] bytes.now)) }
{
    let (members, rest) = elements_from(alloc, around, element, count, bytes)?;
    Ok((group_tree(members), rest))
}

/// The members of so many elements. Where an element takes no bytes all that follow are nothing too.
#[cycle(read)]
#[tactic(auto, unfolding(crate::specs::Decoding::array_in))]
fn elements_from<'a>(
    alloc: Global,
    around: Around<'_>,
    element: &Shape,
    count: u64,
    bytes: &'a [u8],
) -> Result<(Vec<Member>, &'a [u8]), Stop<Missing>>
    ensures { let counts = count_in (fields_of around.entry.fields.now) (members_of around.entry.members.now) in
        Follows (λ x. (members_of x.0.items, x.1.now)) result (array_in (value_in (shape_of element.now) counts around.entry.front) 0 count [] bytes.now) }
{
    let mut members = Vec::new(alloc);
    let mut rest = bytes;
    for number in 0..count {
        let (tree, after) = value_in(alloc, around, element, rest)?;
        if tree.is_absent() && after.len() == rest.len() {
            return Ok((members, rest));
        }
        push_given(&mut members, number, tree)?;
        rest = after;
    }
    Ok((members, rest))
}

/// The value that all of the bytes are. What is zeros is absent, members ascend, and no place is
/// known. Bytes of padding may be anything, a string ends before its first NUL or where its bytes do,
/// and a counted array has as many elements as the field that counts says.
///
/// # Errors
/// The first of these that holds: `Short` where bytes are missing, with the place right behind the first
/// integer, string, address or stretch of padding that isn't there whole, and the number of bytes;
/// `Trailing` with how many bytes are left over. `NoMemory` comes where memory runs out, and then alone.
#[tactic(auto, unfolding(crate::specs::Decoding::value_from))]
pub fn read_bytes(alloc: Global, shape: &Shape, bytes: &[u8]) -> Result<Tree, BytesFault>
    ensures { IsUnlessNoMemory value_of result (value_from (shape_of shape.now) bytes.now) }
{
    let around = Around {
        fields: &[],
        members: &[],
        front: bytes.len(),
    };
    match value_in(alloc, around, shape, bytes) {
        Ok((tree, rest)) => {
            if !rest.is_empty() {
                return Err(BytesFault::Trailing(rest.len()));
            }
            Ok(tree)
        }
        Err(Stop::Fault(Missing(missing))) => Err(BytesFault::Short {
            need: bytes.len() + missing as usize,
            had: bytes.len(),
        }),
        Err(Stop::NoMemory) => Err(BytesFault::NoMemory),
    }
}
