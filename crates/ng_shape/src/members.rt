// Members of a value, by their numbers and by the names of fields.
ghost use Rattle.std.specs.Prelude.{◌≡◌};
ghost use Rattle.ng_shape.specs.Shape.{count_field_of, fields_of};
ghost use Rattle.ng_shape.specs.Values.{are_ascending, count_in, find, find_named, members_of, value_seen};

use crate::fields::{field_number, fields_inside};
use crate::{CountField, Field, Member, Tree};

/// The first member of that number.
pub fn find_member(members: &[Member], number: u64) -> Option<&Tree>
    ensures { value_seen result ≡ find number (members_of members.now) }
{
    for member in members {
        if member.number == number {
            return Some(&member.tree);
        }
    }
    None
}

/// What stands in the field of that name, in a structure with these members.
pub fn find_field<'a>(fields: &[Field], members: &'a [Member], name: &[u8]) -> Option<&'a Tree>
    ensures { value_seen result ≡ find_named (fields_of fields.now) name.now (members_of members.now) }
{
    match field_number(fields, name) {
        Some(number) => find_member(members, number),
        None => None,
    }
}

/// What the field that counts says, in a structure with these members; 0 where it says nothing.
pub fn find_count(fields: &[Field], members: &[Member], by: &CountField) -> u64
    ensures { result ≡ count_in (fields_of fields.now) (members_of members.now) (count_field_of by.now) }
{
    match by {
        CountField::Own(name) => {
            find_field(fields, members, name.as_bytes()).map_or(0, Tree::number)
        }
        CountField::Inside(name, inner) => {
            let structure = find_field(fields, members, name.as_bytes());
            let inside = fields_inside(fields, name.as_bytes());
            let members = structure.map(Tree::members).unwrap_or(&[]);
            find_field(inside, members, inner.as_bytes()).map_or(0, Tree::number)
        }
    }
}

/// Whether the members stand in order of their numbers, none twice.
pub fn are_ascending(members: &[Member]) -> bool
    ensures { result ≡ are_ascending 0 (members_of members.now) }
{
    let mut low: u128 = 0;
    for member in members {
        let number = u128::from(member.number);
        if number < low {
            return false;
        }
        low = number + 1;
    }
    true
}
