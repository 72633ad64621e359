// Fields of a structure by their names.
ghost use Rattle.std.specs.Prelude.{◌≡◌, ◌<◌, length, IfSome, Some};
ghost use Rattle.ng_shape.specs.Shape.{field_number, shape_named, shape_of, shape_seen, fields_inside, fields_of};

use crate::{Field, Shape};

/// The number of the field of that name, counted from 0.
pub fn field_number(fields: &[Field], name: &[u8]) -> Option<u64>
    ensures number { result ≡ field_number (fields_of fields.now) name.now }
    ensures within { IfSome result (λ number. number < length fields.now) }
{
    let mut number = 0;
    for field in fields {
        if field.name.as_bytes() == name {
            return Some(number);
        }
        number += 1;
    }
    None
}

/// What stands in the field of that name.
pub fn shape_named<'a>(fields: &'a [Field], name: &[u8]) -> Option<&'a Shape>
    ensures { shape_seen result ≡ shape_named (fields_of fields.now) name.now }
{
    for field in fields {
        if field.name.as_bytes() == name {
            return Some(&field.shape);
        }
    }
    None
}

/// The fields of the structure that stands in the field of that name; none where none stands there.
pub fn fields_inside<'a>(fields: &'a [Field], name: &[u8]) -> &'a [Field]
    ensures { fields_of result.now ≡ fields_inside (shape_named (fields_of fields.now) name.now) }
{
    match shape_named(fields, name) {
        Some(shape) => inner_fields(shape),
        None => &[],
    }
}

/// The fields of what is a structure.
fn inner_fields(shape: &Shape) -> &[Field]
    ensures { fields_of result.now ≡ fields_inside (Some (shape_of shape.now)) }
{
    match shape {
        Shape::Struct(fields) => fields,
        _ => &[],
    }
}
