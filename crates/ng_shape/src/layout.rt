// Values as bytes.
ghost use Rattle.std.specs.Prelude.{◌≡◌, ◌≤◌, ◌<◌, ◌+◌, ◌-◌, ◌++◌, ℕ, true, vec_len, IfOk, OnOk};
ghost use Rattle.ng_shape.specs.Shape.{shape_of, fields_of};
ghost use Rattle.ng_shape.specs.Values.{are_ascending, count_in, find, members, members_of, number, value_of, value_seen};
ghost use Rattle.ng_shape.specs.Layout.{bytes_of, pad_end, ends_counted, end_gap, gap, layout, number_bytes, fields_bytes, array_bytes, text_bytes};
ghost use Rattle.ng_shape.specs.Layout.{widest, widest_field, width, zeros};

use crate::members::{are_ascending, find_count, find_member};
use crate::sound::is_counted;
use crate::{Field, Member, Shape, Tree};
use ng_base::NoMemory;
use std::alloc::Global;

/// The bytes of an Ethernet address.
pub const ADDRESS_LEN: u32 = 6;

/// The structure that a value stands in: its fields, its members, and the place where it begins.
#[derive(Clone, Copy)]
struct Within<'a> {
    fields: &'a [Field],
    members: &'a [Member],
    front: usize,
}

/// The bytes of an integer of so many bits.
pub fn width(bits: u8) -> usize
    ensures width { result ≡ width bits }
    ensures low { 0 < result }
    ensures high { result ≤ 8 }
{
    match bits {
        16 => 2,
        32 => 4,
        64 => 8,
        _ => 1,
    }
}

/// The bytes of the widest integer in a shape.
#[cycle(widest)]
fn widest(shape: &Shape) -> usize
    ensures widest { result ≡ widest (shape_of shape.now) }
    ensures low { 0 < result }
    ensures high { result ≤ 8 }
{
    match shape {
        Shape::Nothing => 1,
        Shape::UInt(bits) => width(*bits),
        Shape::Int(bits) => width(*bits),
        Shape::Hex(bits) => width(*bits),
        Shape::Str(_) => 1,
        Shape::Ether => 1,
        Shape::Struct(fields) => widest_field(fields),
        Shape::Array(_, element) => widest(element),
        Shape::Counted { element, .. } => widest(element),
    }
}

#[cycle(widest)]
fn widest_field(fields: &[Field]) -> usize
    ensures widest { result ≡ widest_field (fields_of fields.now) }
    ensures low { 0 < result }
    ensures high { result ≤ 8 }
{
    let mut most = 1;
    for field in fields {
        most = widest(&field.shape).max(most);
    }
    most
}

/// How many bytes are missing at a place to a multiple of `width`.
pub fn gap(width: usize, at: usize) -> usize
    requires low { 0 < width }
    requires high { width ≤ 8 }
    ensures gap { result ≡ gap width at }
    ensures high { result ≤ 7 }
{
    (width - at % width) % width
}

/// How many bytes of padding stand at the end of a structure whose fields take `size` bytes.
pub fn end_gap(fields: &[Field], size: usize) -> usize
    ensures gap { result ≡ end_gap (fields_of fields.now) size }
    ensures high { result ≤ 7 }
{
    if ends_counted(fields) {
        return 0;
    }
    gap(widest_field(fields), size)
}

/// Whether the last field is a counted array.
fn ends_counted(fields: &[Field]) -> bool
    ensures { result ≡ ends_counted (fields_of fields.now) }
{
    match fields {
        [] => false,
        [.., last] => is_counted(&last.shape),
    }
}

/// Appends zeros.
fn put_zeros(out: &mut Vec<u8>, count: usize) -> Result<(), NoMemory>
    ensures { OnOk result (out.new.items ≡ out.old.items ++ zeros count) }
{
    for _ in 0..count {
        out.push(0)?;
    }
    Ok(())
}

/// Appends an integer behind its padding.
fn put_number(out: &mut Vec<u8>, front: usize, bits: u8, number: u64) -> Result<(), NoMemory>
    requires { front ≤ vec_len out.old }
    ensures { OnOk result (out.new.items ≡ out.old.items ++ number_bytes (width bits) (vec_len out.old - front) number) }
{
    let width = width(bits);
    let padding = gap(width, out.len() - front);
    put_zeros(out, padding)?;
    out.extend_from_slice(&number.to_le_bytes()[..width])?;
    Ok(())
}

/// Appends the text and zeros behind it, `len` bytes in all.
fn put_text(out: &mut Vec<u8>, len: u32, text: &[u8]) -> Result<(), NoMemory>
    ensures { OnOk result (out.new.items ≡ out.old.items ++ text_bytes len text.now) }
{
    let len = len as usize;
    if text.len() > len {
        out.extend_from_slice(&text[..len])?;
        return Ok(());
    }
    out.extend_from_slice(text)?;
    put_zeros(out, len - text.len())
}

/// Appends a value.
#[cycle(put)]
#[tactic(auto, unfolding(crate::specs::Layout::layout))]
fn put(
    out: &mut Vec<u8>,
    within: Within<'_>,
    shape: &Shape,
    tree: Option<&Tree>,
) -> Result<(), NoMemory>
    requires { within.front ≤ vec_len out.old }
    ensures { let counts = count_in (fields_of within.entry.fields.now) (members_of within.entry.members.now) in
        OnOk result (out.new.items ≡ out.old.items ++
        layout (shape_of shape.now) counts (value_seen tree.entry) (vec_len out.old - within.entry.front)) }
{
    let front = within.front;
    match shape {
        Shape::Nothing => Ok(()),
        Shape::UInt(bits) => put_number(out, front, *bits, tree.map_or(0, Tree::number)),
        Shape::Int(bits) => put_number(out, front, *bits, tree.map_or(0, Tree::number)),
        Shape::Hex(bits) => put_number(out, front, *bits, tree.map_or(0, Tree::number)),
        Shape::Str(len) => put_text(out, *len, tree.map(Tree::chars).unwrap_or(&[])),
        Shape::Ether => put_text(out, ADDRESS_LEN, tree.map(Tree::chars).unwrap_or(&[])),
        Shape::Struct(fields) => put_structure(out, fields, tree),
        Shape::Array(count, element) => { put_array(out, within, element, u64::from(*count), tree) }
        Shape::Counted { by, element, .. } => {
            let count = find_count(within.fields, within.members, by);
            put_array(out, within, element, count, tree)
        }
    }
}

/// Appends a structure, with the padding at its end.
#[cycle(put)]
fn put_structure(out: &mut Vec<u8>, fields: &[Field], tree: Option<&Tree>) -> Result<(), NoMemory>
    ensures { let fs = fields_of fields.now in let ms = members (value_seen tree.entry) in
        OnOk result (out.new.items ≡ out.old.items ++ pad_end fs (fields_bytes fs (count_in fs ms) ms 0 0)) }
{
    let front = out.len();
    put_fields(out, fields, tree.map(Tree::members).unwrap_or(&[]))?;
    let size = out.len() - front;
    put_zeros(out, end_gap(fields, size))
}

/// Appends the fields of a structure, which begins here.
#[cycle(put)]
fn put_fields(out: &mut Vec<u8>, fields: &[Field], members: &[Member]) -> Result<(), NoMemory>
    ensures { let fs = fields_of fields.now in let ms = members_of members.now in
        OnOk result (out.new.items ≡ out.old.items ++ fields_bytes fs (count_in fs ms) ms 0 0) }
{
    let within = Within {
        fields,
        members,
        front: out.len(),
    };
    let mut number = 0;
    for field in fields {
        put(out, within, &field.shape, find_member(members, number))?;
        number += 1;
    }
    Ok(())
}

/// Appends elements, each behind the other.
#[cycle(put)]
fn put_array(
    out: &mut Vec<u8>,
    within: Within<'_>,
    element: &Shape,
    count: u64,
    tree: Option<&Tree>,
) -> Result<(), NoMemory>
    requires { within.front ≤ vec_len out.old }
    ensures { let counts = count_in (fields_of within.entry.fields.now) (members_of within.entry.members.now) in
        OnOk result (out.new.items ≡ out.old.items ++
        array_bytes (layout (shape_of element.now) counts) (members (value_seen tree.entry)) 0 count (vec_len out.old - within.entry.front)) }
{
    let members = tree.map(Tree::members).unwrap_or(&[]);
    if are_ascending(members) {
        put_ascending(out, within, element, count, members)
    } else {
        put_any(out, within, element, count, members)
    }
}

/// Appends elements whose members stand in order: each is looked at once.
#[cycle(put)]
fn put_ascending(
    out: &mut Vec<u8>,
    within: Within<'_>,
    element: &Shape,
    count: u64,
    members: &[Member],
) -> Result<(), NoMemory>
    requires front { within.front ≤ vec_len out.old }
    requires ascending { are_ascending 0 (members_of members.now) ≡ true }
    ensures { let counts = count_in (fields_of within.entry.fields.now) (members_of within.entry.members.now) in
        OnOk result (out.new.items ≡ out.old.items ++
        array_bytes (layout (shape_of element.now) counts) (members_of members.now) 0 count (vec_len out.old - within.entry.front)) }
{
    let mut rest = members;
    for number in 0..count {
        let (tree, after) = front_member(rest, number);
        put(out, within, element, tree)?;
        rest = after;
    }
    Ok(())
}

/// Appends elements whose members stand in any order.
#[cycle(put)]
fn put_any(
    out: &mut Vec<u8>,
    within: Within<'_>,
    element: &Shape,
    count: u64,
    members: &[Member],
) -> Result<(), NoMemory>
    requires { within.front ≤ vec_len out.old }
    ensures { let counts = count_in (fields_of within.entry.fields.now) (members_of within.entry.members.now) in
        OnOk result (out.new.items ≡ out.old.items ++
        array_bytes (layout (shape_of element.now) counts) (members_of members.now) 0 count (vec_len out.old - within.entry.front)) }
{
    for number in 0..count {
        put(out, within, element, find_member(members, number))?;
    }
    Ok(())
}

/// The value of the first member, if it has this number, and the members behind it.
fn front_member(members: &[Member], number: u64) -> (Option<&Tree>, &[Member])
    requires { are_ascending number (members_of members.now) ≡ true }
    ensures found { value_seen result.0 ≡ find number (members_of members.now) }
    ensures later { (i : ℕ) → number < i → find i (members_of result.1.now) ≡ find i (members_of members.now) }
    ensures ascending { are_ascending (number + 1) (members_of result.1.now) ≡ true }
{
    match members {
        [] => (None, members),
        [first, after @ ..] => {
            if first.number == number {
                (Some(&first.tree), after)
            } else {
                (None, members)
            }
        }
    }
}

/// The bytes of a value: fields in order, integers with their lowest byte first, each integer at a
/// multiple of its size from the front of its structure, a structure padded with zeros to a multiple of
/// its widest integer unless its last field is a counted array. What isn't given is zeros. A counted
/// array has as many elements as the value of the field that counts says.
///
/// # Errors
/// `NoMemory` where memory runs out.
pub fn lay_out(alloc: Global, shape: &Shape, tree: &Tree) -> Result<Vec<u8>, NoMemory>
    ensures bytes { IfOk result (λ bytes. bytes.items ≡ bytes_of (shape_of shape.now) (value_of tree.now)) }
{
    let mut out = Vec::new(alloc);
    let nowhere = Within {
        fields: &[],
        members: &[],
        front: 0,
    };
    put(&mut out, nowhere, shape, Some(tree))?;
    Ok(out)
}
