// Fields that count the elements of arrays.
ghost use Rattle.std.specs.Prelude.{◌≡◌, ◌≤◌, ◌^◌, [], IfOk, Option, option_map, Some, None};
ghost use Rattle.ng_shape.specs.Shape.{count_field_of, shape_of, shape_named, fields_inside, fields_of};
ghost use Rattle.ng_shape.specs.Values.{Group, Number, find, is_absent, members, members_of, number, pack, value_of, value_seen};
ghost use Rattle.ng_parse.specs.Counts.{count_fault, count_value, fill_count, fill_counts, fill_field, first_fault, left_of, put_count, put_field};
ghost use Rattle.ng_parse.specs.Counts.{reach, without, wrong_count, wrong_count_in};

use crate::fault::{Fault, Why};
use ng_base::NoMemory;
use ng_shape::{
    CountField, Field, Member, Shape, Tree, field_number, fields_inside, find_field, find_member,
};
use std::alloc::Global;

/// The value of the field that counts, in a structure with these members.
fn count_tree<'a>(fields: &[Field], members: &'a [Member], by: &CountField) -> Option<&'a Tree>
    ensures { value_seen result ≡ count_value (fields_of fields.now) (members_of members.now) (count_field_of by.now) }
{
    match by {
        CountField::Own(name) => find_field(fields, members, name.as_bytes()),
        CountField::Inside(name, inner) => {
            let structure = find_field(fields, members, name.as_bytes());
            let inside = fields_inside(fields, name.as_bytes());
            find_field(inside, inner_members(structure), inner.as_bytes())
        }
    }
}

/// The greatest index plus 1, or 0.
fn reach(members: &[Member]) -> u128
    ensures reach { result ≡ reach (members_of members.now) }
    ensures high { result ≤ 2 ^ 64 }
{
    let mut reach = 0;
    for member in members {
        reach = (u128::from(member.number) + 1).max(reach);
    }
    reach
}

/// The members of what may have been given; none where nothing was, or no group.
pub fn inner_members(tree: Option<&Tree>) -> &[Member]
    ensures { members_of result.now ≡ members (value_seen tree.entry) }
{
    tree.map(Tree::members).unwrap_or(&[])
}

/// The number of bytes of the text from a value's front on.
fn left_of(tree: Option<&Tree>) -> usize
    ensures { result ≡ left_of (value_seen tree.entry) }
{
    match tree {
        Some(Tree::Number { left, .. }) => *left,
        Some(Tree::Group { left, .. }) => *left,
        _ => 0,
    }
}

// ---- counts that were not given

/// The value of the member of that number, nothing where there is none, and the other members.
fn take_member(mut members: Vec<Member>, number: u64) -> (Tree, Vec<Member>)
    ensures tree { value_of result.0 ≡ find number (members_of members.items) }
    ensures rest { members_of result.1.items ≡ without number (members_of members.items) }
{
    for at in 0..members.len() {
        if members[at].number == number {
            let Member { tree, .. } = members.remove(at);
            return (tree, members);
        }
    }
    (Tree::Absent, members)
}

/// Puts a value into the field of that number, if there is one.
fn put_field(members: Vec<Member>, number: Option<u64>, tree: Tree) -> Result<Vec<Member>, NoMemory>
    ensures { IfOk result (λ ms. members_of ms.items ≡ put_field number (value_of tree) (members_of members.items)) }
{
    let Some(number) = number else {
        return Ok(members);
    };
    let (_, mut rest) = take_member(members, number);
    rest.insert(0, Member { number, tree })?;
    Ok(rest)
}

/// The members of a value; none where nothing was given, or no group.
fn into_members(alloc: Global, tree: Tree) -> Vec<Member>
    ensures { members_of result.items ≡ members (value_of tree) }
{
    match tree {
        Tree::Group { members, left: _ } => members,
        Tree::Text(_text) => Vec::new(alloc),
        Tree::Number { left: _, value: _ } => Vec::new(alloc),
        Tree::Absent => Vec::new(alloc),
    }
}

/// Puts a count into the field of that number, in a structure.
fn put_inside(
    alloc: Global,
    structure: Tree,
    number: Option<u64>,
    count: u64,
) -> Result<Tree, NoMemory>
    ensures { IfOk result (λ tree. value_of tree ≡
        Group (left_of (value_of structure)) (pack (put_field number (Number 0 count) (members (value_of structure))))) }
{
    let left = left_of(Some(&structure));
    let count = Tree::Number {
        left: 0,
        value: count,
    };
    let members = put_field(into_members(alloc, structure), number, count)?;
    Ok(Tree::Group { left, members })
}

/// Puts a count into the field that counts.
fn put_count(
    alloc: Global,
    fields: &[Field],
    members: Vec<Member>,
    by: &CountField,
    count: u64,
) -> Result<Vec<Member>, NoMemory>
    ensures { IfOk result (λ ms. members_of ms.items ≡ put_count (fields_of fields.now) (count_field_of by.now) count (members_of members.items)) }
{
    match by {
        CountField::Own(name) => {
            let number = field_number(fields, name.as_bytes());
            let tree = Tree::Number {
                left: 0,
                value: count,
            };
            put_field(members, number, tree)
        }
        CountField::Inside(name, inner) => {
            let Some(number) = field_number(fields, name.as_bytes()) else {
                return Ok(members);
            };
            let (structure, mut rest) = take_member(members, number);
            let inside = field_number(fields_inside(fields, name.as_bytes()), inner.as_bytes());
            let tree = put_inside(alloc, structure, inside, count)?;
            rest.insert(0, Member { number, tree })?;
            Ok(rest)
        }
    }
}

/// Fills in the count of an array that has so many elements, where it was not given.
fn fill_count(
    alloc: Global,
    fields: &[Field],
    members: Vec<Member>,
    by: &CountField,
    max: u32,
    count: u128,
) -> Result<Vec<Member>, NoMemory>
    requires { count ≤ 2 ^ 64 }
    ensures { IfOk result (λ ms. members_of ms.items ≡ fill_count (fields_of fields.now) (count_field_of by.now) max count (members_of members.items)) }
{
    if count_tree(fields, &members, by).map_or(true, Tree::is_absent)
        && 0 < count
        && count <= u128::from(max)
    {
        return put_count(alloc, fields, members, by, count as u64);
    }
    Ok(members)
}

/// The same of a field, if it is an array that is counted.
fn fill_field(
    alloc: Global,
    fields: &[Field],
    members: Vec<Member>,
    shape: &Shape,
    number: u64,
) -> Result<Vec<Member>, NoMemory>
    ensures { IfOk result (λ ms. members_of ms.items ≡ fill_field (fields_of fields.now) (shape_of shape.now) number (members_of members.items)) }
{
    match shape {
        Shape::Counted { by, max, .. } => {
            let count = reach(inner_members(find_member(&members, number)));
            fill_count(alloc, fields, members, by, *max, count)
        }
        _ => Ok(members),
    }
}

/// Fills in the counts of a structure that were not given.
pub fn fill_counts(
    alloc: Global,
    fields: &[Field],
    members: Vec<Member>,
) -> Result<Vec<Member>, NoMemory>
    ensures { IfOk result (λ ms. members_of ms.items ≡ fill_counts (fields_of fields.now) (fields_of fields.now) 0 (members_of members.items)) }
{
    let mut members = members;
    let mut number = 0;
    for field in fields {
        members = fill_field(alloc, fields, members, &field.shape, number)?;
        number += 1;
    }
    Ok(members)
}

// ---- counts that are wrong

/// The structure that a value stands in: its fields and its members.
#[derive(Clone, Copy)]
pub struct Around<'a> {
    pub fields: &'a [Field],
    pub members: &'a [Member],
}

/// A count above `max`, or an index that is not below the count.
fn count_fault(max: u32, count: Option<&Tree>, array: Option<&Tree>) -> Option<Fault>
    ensures { result ≡ count_fault max (value_seen count.entry) (value_seen array.entry) }
{
    let number = count.map_or(0, Tree::number);
    if number > u64::from(max) {
        let left = left_of(count);
        return Some(Fault {
            why: Why::Range,
            left,
        });
    }
    if u128::from(number) < reach(inner_members(array)) {
        let left = left_of(array);
        return Some(Fault {
            why: Why::TooMany,
            left,
        });
    }
    None
}

/// The first wrong count in a value, in order of fields.
#[cycle(count)]
#[tactic(auto, unfolding(crate::specs::Counts::wrong_count))]
pub fn wrong_count(around: Around<'_>, shape: &Shape, tree: Option<&Tree>) -> Option<Fault>
    ensures { let counts = count_value (fields_of around.entry.fields.now) (members_of around.entry.members.now) in
        result ≡ wrong_count (shape_of shape.now) counts (value_seen tree.entry) }
{
    match shape {
        Shape::Struct(fields) => wrong_count_in(fields, inner_members(tree)),
        Shape::Array(_, element) => first_fault(around, element, inner_members(tree)),
        Shape::Counted { by, max, element } => {
            let count = count_tree(around.fields, around.members, by);
            match count_fault(*max, count, tree) {
                Some(fault) => Some(fault),
                None => first_fault(around, element, inner_members(tree)),
            }
        }
        _ => None,
    }
}

/// The first one in a structure.
#[cycle(count)]
fn wrong_count_in(fields: &[Field], members: &[Member]) -> Option<Fault>
    ensures { let fs = fields_of fields.now in let ms = members_of members.now in
        result ≡ wrong_count_in fs (count_value fs ms) ms 0 }
{
    let around = Around { fields, members };
    let mut number = 0;
    for field in fields {
        let fault = wrong_count(around, &field.shape, find_member(members, number));
        if fault.is_some() {
            return fault;
        }
        number += 1;
    }
    None
}

/// The first one among elements.
#[cycle(count)]
fn first_fault(around: Around<'_>, element: &Shape, members: &[Member]) -> Option<Fault>
    ensures { let counts = count_value (fields_of around.entry.fields.now) (members_of around.entry.members.now) in
        result ≡ first_fault (wrong_count (shape_of element.now) counts) (members_of members.now) }
{
    for member in members {
        let fault = wrong_count(around, element, Some(&member.tree));
        if fault.is_some() {
            return fault;
        }
    }
    None
}
