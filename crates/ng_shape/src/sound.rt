// Whether a shape is one.
ghost use Rattle.std.specs.Prelude.{◌≡◌, ◌^◌, ◌&&◌, nat_le, nat_lt};
ghost use Rattle.ng_shape.specs.Shape.{count_field_of, shape_of, shape_seen, fields_of};
ghost use Rattle.ng_shape.specs.Sound.{are_sound, can_count, counter_shape, counts, counts_inside, depth, depth_of_fields, has_counts, has_field};
ghost use Rattle.ng_shape.specs.Sound.{has_names, has_width, is_counted, is_counted_well, is_shape, is_sound, is_word, is_word_byte, same_counter};

use crate::fields::{fields_inside, shape_named};
use crate::{CountField, Field, Shape};

/// How deep structures and arrays may lie in one another.
const DEEPEST: u8 = 16;

/// The most bytes that a string can have, its NULs included.
const LONGEST: u32 = 1 << 31;

/// Whether a shape is one: integers have 8, 16, 32 or 64 bits, a string has 1 to 2^31 bytes, the names
/// of a structure's fields are different words, a counted array is a field of a structure and counted
/// by an earlier unsigned integer of it (or of a structure that is an earlier field of it) which can be
/// as great as `max` and counts no other array, and the shape is at most 16 deep, where one without
/// structures and arrays is 1 deep.
pub fn is_shape(shape: &Shape) -> bool
    ensures { result ≡ is_shape (shape_of shape.now) }
{
    !is_counted(shape) && is_sound(shape) && is_at_most(shape, DEEPEST)
}

/// Whether a byte can stand in a word: a letter, a digit, `_`, `-` or `:`.
pub fn is_word_byte(byte: u8) -> bool
    ensures { result ≡ is_word_byte byte }
{
    byte.is_ascii_alphanumeric() || matches!(byte, b'_' | b'-' | b':')
}

fn is_word(name: &[u8]) -> bool
    ensures { result ≡ is_word name.now }
{
    !name.is_empty() && name.iter().all(|byte| is_word_byte(*byte))
}

fn has_width(bits: u8) -> bool
    ensures { result ≡ has_width bits }
{
    matches!(bits, 8 | 16 | 32 | 64)
}

/// Whether it is a counted array.
pub fn is_counted(shape: &Shape) -> bool
    ensures { result ≡ is_counted (shape_of shape.now) }
{
    matches!(shape, Shape::Counted { .. })
}

/// Whether the fields' names are different words.
fn has_names(fields: &[Field]) -> bool
    ensures { result ≡ has_names (fields_of fields.now) }
{
    for (at, field) in fields.iter().enumerate() {
        let name = field.name.as_bytes();
        if !is_word(name) || has_field(name, &fields[at + 1..]) {
            return false;
        }
    }
    true
}

fn has_field(name: &[u8], fields: &[Field]) -> bool
    ensures { result ≡ has_field name.now (fields_of fields.now) }
{
    for field in fields {
        if field.name.as_bytes() == name {
            return true;
        }
    }
    false
}

/// Whether each counted array among the fields is counted by one of those before it.
fn has_counts(fields: &[Field]) -> bool
    ensures { result ≡ has_counts (fields_of fields.now) 0 (fields_of fields.now) }
{
    for (at, field) in fields.iter().enumerate() {
        if !is_counted_well(&fields[..at], &field.shape) {
            return false;
        }
    }
    true
}

fn is_counted_well(earlier: &[Field], shape: &Shape) -> bool
    ensures { result ≡ is_counted_well (fields_of earlier.now) (shape_of shape.now) }
{
    match shape {
        Shape::Counted { by, max, .. } => {
            can_count(*max, counter_shape(earlier, by))
                && !counts(by, earlier)
                && !counts_inside(by, earlier)
        }
        _ => true,
    }
}

/// What stands in the field that counts.
fn counter_shape<'a>(fields: &'a [Field], by: &CountField) -> Option<&'a Shape>
    ensures { shape_seen result ≡ counter_shape (fields_of fields.now) (count_field_of by.now) }
{
    match by {
        CountField::Own(name) => shape_named(fields, name.as_bytes()),
        CountField::Inside(name, inner) => {
            shape_named(fields_inside(fields, name.as_bytes()), inner.as_bytes())
        }
    }
}

/// Whether it is an unsigned integer that can be as great as `max`.
fn can_count(max: u32, shape: Option<&Shape>) -> bool
    ensures { result ≡ can_count max (shape_seen shape.entry) }
{
    match shape {
        Some(Shape::UInt(bits)) => is_below_power(max, *bits),
        _ => false,
    }
}

/// Whether the number is below so great a power of two.
fn is_below_power(number: u32, power: u8) -> bool
    ensures { result ≡ nat_lt number (2 ^ power) }
{
    power >= 32 || u64::from(number) < 1 << power
}

/// Whether one of the fields is an array that this field counts.
fn counts(by: &CountField, fields: &[Field]) -> bool
    ensures { result ≡ counts (count_field_of by.now) (fields_of fields.now) }
{
    for field in fields {
        if let Shape::Counted { by: other, .. } = &field.shape
            && same_counter(other, by)
        {
            return true;
        }
    }
    false
}

/// Whether the field that counts, inside of a structure, counts an array in there.
fn counts_inside(by: &CountField, fields: &[Field]) -> bool
    ensures { result ≡ counts_inside (count_field_of by.now) (fields_of fields.now) }
{
    match by {
        CountField::Own(_) => false,
        CountField::Inside(name, inner) => counts(
            &CountField::Own(*inner),
            fields_inside(fields, name.as_bytes()),
        ),
    }
}

fn same_counter(by: &CountField, other: &CountField) -> bool
    ensures { result ≡ same_counter (count_field_of by.now) (count_field_of other.now) }
{
    match (by, other) {
        (CountField::Own(name), CountField::Own(other)) => name.as_bytes() == other.as_bytes(),
        (CountField::Inside(name, inner), CountField::Inside(other, deep)) => {
            name.as_bytes() == other.as_bytes() && inner.as_bytes() == deep.as_bytes()
        }
        _ => false,
    }
}

/// Whether all that a shape is made of is as it must be.
#[cycle(sound)]
fn is_sound(shape: &Shape) -> bool
    ensures { result ≡ is_sound (shape_of shape.now) }
{
    match shape {
        Shape::Nothing => true,
        Shape::UInt(bits) => has_width(*bits),
        Shape::Int(bits) => has_width(*bits),
        Shape::Hex(bits) => has_width(*bits),
        Shape::Str(n) => 1 <= *n && *n <= LONGEST,
        Shape::Ether => true,
        Shape::Struct(fields) => is_structure(fields),
        Shape::Array(_, element) => !is_counted(element) && is_sound(element),
        Shape::Counted { element, .. } => !is_counted(element) && is_sound(element),
    }
}

#[cycle(sound)]
fn is_structure(fields: &[Field]) -> bool
    ensures { let fs = fields_of fields.now in result ≡ (has_names fs && has_counts fs 0 fs && are_sound fs) }
{
    has_names(fields) && has_counts(fields) && are_sound(fields)
}

#[cycle(sound)]
fn are_sound(fields: &[Field]) -> bool
    ensures { result ≡ are_sound (fields_of fields.now) }
{
    for field in fields {
        if !is_sound(&field.shape) {
            return false;
        }
    }
    true
}

/// Whether a shape is at most so deep.
#[cycle(depth)]
fn is_at_most(shape: &Shape, deepest: u8) -> bool
    ensures { result ≡ nat_le (depth (shape_of shape.now)) deepest }
{
    if deepest == 0 {
        return false;
    }
    match shape {
        Shape::Struct(fields) => are_at_most(fields, deepest - 1),
        Shape::Array(_, element) => is_at_most(element, deepest - 1),
        Shape::Counted { element, .. } => is_at_most(element, deepest - 1),
        _ => true,
    }
}

#[cycle(depth)]
fn are_at_most(fields: &[Field], deepest: u8) -> bool
    ensures { result ≡ nat_le (depth_of_fields (fields_of fields.now)) deepest }
{
    for field in fields {
        if !is_at_most(&field.shape, deepest) {
            return false;
        }
    }
    true
}
