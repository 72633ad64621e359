// Values as text.
ghost use Rattle.std.specs.Prelude.{◌≡◌, ◌≤◌, ◌++◌, ◌∷◌, [], OnOk};
ghost use Rattle.std.specs.Fmt.{decimal};
ghost use Rattle.std.specs.List.{flat_map};
ghost use Rattle.ng_shape.specs.Shape.{shape_of, fields_of};
ghost use Rattle.ng_shape.specs.Values.{chars, is_absent, members_of, value_of, value_seen};
ghost use Rattle.ng_parse.specs.Ascii.{close_brace, open_brace, space};
ghost use Rattle.ng_parse.specs.Printing.{address_bytes, print, print_address, print_char, print_elements, print_field, print_groups, print_hex};
ghost use Rattle.ng_parse.specs.Printing.{print_index, print_fields, print_array, print_signed, print_string, two_digits};

use crate::counting::inner_members;
use crate::integers::limit;
use ng_base::NoMemory;
use ng_shape::{Field, Member, Shape, Tree, find_member};
use std::alloc::Global;

fn print_number(alloc: Global, out: &mut Vec<u8>, number: u64) -> Result<(), NoMemory>
    ensures { OnOk result (out.new.items ≡ out.old.items ++ decimal number) }
{
    let text = format!(in alloc; "{number}")?;
    out.extend_from_slice(text.as_bytes())?;
    Ok(())
}

fn print_hex(alloc: Global, out: &mut Vec<u8>, number: u64) -> Result<(), NoMemory>
    ensures { OnOk result (out.new.items ≡ out.old.items ++ print_hex number) }
{
    let text = format!(in alloc; "0x{number:x}")?;
    out.extend_from_slice(text.as_bytes())?;
    Ok(())
}

fn print_signed(alloc: Global, out: &mut Vec<u8>, bits: u8, number: u64) -> Result<(), NoMemory>
    ensures { OnOk result (out.new.items ≡ out.old.items ++ print_signed bits number) }
{
    let limit = limit(bits);
    if 2 * u128::from(number) < limit {
        return print_number(alloc, out, number);
    }
    out.push(b'-')?;
    print_number(alloc, out, limit.saturating_sub(u128::from(number)) as u64)
}

/// Two hexadecimal digits.
#[tactic(auto, using(std::proofs::lemmas::Fmt::hex_byte))]
fn print_byte(alloc: Global, out: &mut Vec<u8>, byte: u8) -> Result<(), NoMemory>
    ensures { OnOk result (out.new.items ≡ out.old.items ++ two_digits byte) }
{
    let text = format!(in alloc; "{byte:02x}")?;
    out.extend_from_slice(text.as_bytes())?;
    Ok(())
}

/// A byte of a string.
fn print_char(alloc: Global, out: &mut Vec<u8>, byte: u8) -> Result<(), NoMemory>
    ensures { OnOk result (out.new.items ≡ out.old.items ++ print_char byte) }
{
    if byte == b'"' || byte == b'\\' {
        out.push(b'\\')?;
        out.push(byte)?;
    } else if byte < 0x20 || byte > 0x7e {
        out.extend_from_slice(b"\\x")?;
        print_byte(alloc, out, byte)?;
    } else {
        out.push(byte)?;
    }
    Ok(())
}

fn print_string(alloc: Global, out: &mut Vec<u8>, text: &[u8]) -> Result<(), NoMemory>
    ensures { OnOk result (out.new.items ≡ out.old.items ++ print_string text.now) }
{
    out.push(b'"')?;
    for byte in text {
        print_char(alloc, out, *byte)?;
    }
    out.push(b'"')?;
    Ok(())
}

/// An address, behind a colon each byte but the first.
fn print_address(alloc: Global, out: &mut Vec<u8>, bytes: &[u8]) -> Result<(), NoMemory>
    ensures { OnOk result (out.new.items ≡ out.old.items ++ print_address bytes.now) }
{
    let [first, rest @ ..] = bytes else {
        return Ok(());
    };
    print_byte(alloc, out, *first)?;
    print_groups(alloc, out, rest)
}

fn print_groups(alloc: Global, out: &mut Vec<u8>, bytes: &[u8]) -> Result<(), NoMemory>
    ensures { OnOk result (out.new.items ≡ out.old.items ++ print_groups bytes.now) }
{
    for byte in bytes {
        out.push(b':')?;
        print_byte(alloc, out, *byte)?;
    }
    Ok(())
}

/// The bytes of an address, zeros where none was given.
fn address_bytes(tree: Option<&Tree>) -> &[u8]
    ensures { result.now ≡ address_bytes (chars (value_seen tree.entry)) }
{
    let bytes = tree.map(Tree::chars).unwrap_or(&[]);
    if bytes.is_empty() {
        return &[0, 0, 0, 0, 0, 0];
    }
    bytes
}

/// A blank, and the index of an element unless it is the next one.
fn print_index(alloc: Global, out: &mut Vec<u8>, next: u128, index: u64) -> Result<(), NoMemory>
    ensures { OnOk result (out.new.items ≡ out.old.items ++ print_index next index) }
{
    out.push(b' ')?;
    if u128::from(index) == next {
        return Ok(());
    }
    print_number(alloc, out, index)?;
    out.push(b'=')?;
    Ok(())
}

/// Appends the text of a value.
#[cycle(print)]
#[tactic(auto, unfolding(crate::specs::Printing::print))]
pub fn print(
    alloc: Global,
    out: &mut Vec<u8>,
    shape: &Shape,
    tree: Option<&Tree>,
) -> Result<(), NoMemory>
    ensures { OnOk result (out.new.items ≡ out.old.items ++ print (shape_of shape.now) (value_seen tree.entry)) }
{
    match shape {
        Shape::Nothing => Ok(()),
        Shape::UInt(_) => print_number(alloc, out, tree.map_or(0, Tree::number)),
        Shape::Int(bits) => print_signed(alloc, out, *bits, tree.map_or(0, Tree::number)),
        Shape::Hex(_) => print_hex(alloc, out, tree.map_or(0, Tree::number)),
        Shape::Str(_) => print_string(alloc, out, tree.map(Tree::chars).unwrap_or(&[])),
        Shape::Ether => print_address(alloc, out, address_bytes(tree)),
        Shape::Struct(fields) => print_structure(alloc, out, fields, inner_members(tree)),
        Shape::Array(_, element) => print_array(alloc, out, element, inner_members(tree)),
        Shape::Counted { element, .. } => print_array(alloc, out, element, inner_members(tree)),
    }
}

/// Appends a structure: the fields that were given, in the structure's order.
#[cycle(print)]
fn print_structure(
    alloc: Global,
    out: &mut Vec<u8>,
    fields: &[Field],
    members: &[Member],
) -> Result<(), NoMemory>
    ensures { OnOk result (out.new.items ≡ out.old.items ++
        (open_brace ∷ print_fields (fields_of fields.now) (members_of members.now) 0 ++ space ∷ close_brace ∷ [])) }
{
    out.push(b'{')?;
    let mut number = 0;
    for field in fields {
        print_field(alloc, out, field, find_member(members, number))?;
        number += 1;
    }
    out.extend_from_slice(b" }")?;
    Ok(())
}

#[cycle(print)]
fn print_field(
    alloc: Global,
    out: &mut Vec<u8>,
    field: &Field,
    tree: Option<&Tree>,
) -> Result<(), NoMemory>
    ensures { OnOk result (out.new.items ≡ out.old.items ++ print_field field.now.name.now (print (shape_of field.now.shape)) (value_seen tree.entry)) }
{
    if tree.map_or(true, Tree::is_absent) {
        return Ok(());
    }
    out.push(b' ')?;
    out.extend_from_slice(field.name.as_bytes())?;
    out.push(b'=')?;
    print(alloc, out, &field.shape, tree)
}

/// Appends an array: the elements that were given.
#[cycle(print)]
fn print_array(
    alloc: Global,
    out: &mut Vec<u8>,
    element: &Shape,
    members: &[Member],
) -> Result<(), NoMemory>
    ensures { OnOk result (out.new.items ≡ out.old.items ++ print_array (print (shape_of element.now)) (members_of members.now)) }
{
    out.push(b'[')?;
    let mut next: u128 = 0;
    for member in members {
        print_index(alloc, out, next, member.number)?;
        print(alloc, out, element, Some(&member.tree))?;
        next = u128::from(member.number) + 1;
    }
    out.extend_from_slice(b" ]")?;
    Ok(())
}
