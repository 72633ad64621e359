// Values and their bytes.
use super::U8;
use ng_shape::{CountField, Field, Member, Shape, Tree, lay_out, read_bytes};
use std::test::Fail;

/// A number that comes from no text.
fn number(value: u64) -> Tree {
    Tree::Number { left: 0, value }
}

/// A group that comes from no text, with these members.
macro_rules! group {
    ($alloc:expr; $($number:literal: $tree:expr),* $(,)?) => {{
        let mut members = Vec::new($alloc);
        $(
            members.push(Member {
                number: $number,
                tree: $tree,
            })?;
        )*
        Tree::Group { left: 0, members }
    }};
}

#[test]
fn integers(rt: HostRuntime) -> Result<(), Fail> {
    for (shape, value, bytes) in [
        (U8, 0x12, [0x12].as_slice()),
        (Shape::UInt(16), 0x1234, &[0x34, 0x12]),
        (Shape::Hex(32), 0x1234_5678, &[0x78, 0x56, 0x34, 0x12]),
        (Shape::Int(16), 0xfffe, &[0xfe, 0xff]),
        (
            Shape::UInt(64),
            0x0102_0304_0506_0708,
            &[8, 7, 6, 5, 4, 3, 2, 1],
        ),
    ] {
        let tree = number(value);
        assert_eq!(rt; lay_out(rt.alloc(), &shape, &tree)?.as_slice(), bytes);
        assert_eq!(rt; read_bytes(rt.alloc(), &shape, bytes)?, tree);
    }
    Ok(())
}

#[test]
fn strings_and_addresses(rt: HostRuntime) -> Result<(), Fail> {
    for (shape, text, bytes) in [
        (Shape::Str(3), b"hi".as_slice(), b"hi\0".as_slice()),
        (Shape::Str(5), b"hi", b"hi\0\0\0"),
        (Shape::Ether, b"\x02abcd\0", b"\x02abcd\0"),
    ] {
        let tree = Tree::Text(Vec::from_slice(rt.alloc(), text)?);
        assert_eq!(rt; lay_out(rt.alloc(), &shape, &tree)?.as_slice(), bytes);
        assert_eq!(rt; read_bytes(rt.alloc(), &shape, bytes)?, tree);
    }
    // What stands behind the first NUL is no part of the string.
    let tree = Tree::Text(Vec::from_slice(rt.alloc(), b"a")?);
    assert_eq!(rt; read_bytes(rt.alloc(), &Shape::Str(4), b"a\0bc")?, tree);
    Ok(())
}

/// What has padding in all places: between fields, behind a counted array, in a structure and at its
/// end.
const PADDED: Shape = Shape::Struct(&[
    field!("n", U8),
    field!("xs", counted!(CountField::Own("n"), 3, &U8)),
    field!("y", Shape::UInt(16)),
    field!(
        "s",
        Shape::Struct(&[field!("a", Shape::UInt(32)), field!("b", U8)])
    ),
    field!("z", U8),
]);

const OPEN: Shape = Shape::Struct(&[
    field!("n", Shape::UInt(32)),
    field!("xs", counted!(CountField::Own("n"), 3, &Shape::UInt(16))),
]);

#[test]
fn padding(rt: HostRuntime) -> Result<(), Fail> {
    let alloc = rt.alloc();
    let tree = group!(alloc;
        0: number(2),
        1: group!(alloc; 0: number(5), 1: number(6)),
        2: number(7),
        3: group!(alloc; 0: number(8), 1: number(9)),
        4: number(10),
    );
    // n, two elements, a byte up to y, y, the structure with three bytes at its end, z, and one byte
    // up to a multiple of four.
    let bytes = [2, 5, 6, 0, 7, 0, 8, 0, 0, 0, 9, 0, 0, 0, 10, 0];
    assert_eq!(rt;
        lay_out(alloc, &PADDED, &tree)?.as_slice(),
        bytes.as_slice()
    );
    assert_eq!(rt; read_bytes(alloc, &PADDED, &bytes)?, tree);
    // Nothing stands behind a counted array that is the last field.
    let tree = group!(alloc; 0: number(1));
    assert_eq!(rt; lay_out(alloc, &OPEN, &tree)?.len(), 6);
    Ok(())
}

/// The count stands in an earlier structure.
const INSIDE: Shape = Shape::Struct(&[
    field!(
        "head",
        Shape::Struct(&[field!("name", Shape::Str(3)), field!("n", U8)])
    ),
    field!(
        "xs",
        counted!(CountField::Inside("head", "n"), 9, &Shape::UInt(16))
    ),
]);

const FIVE: Shape = Shape::Array(5, &U8);

#[test]
fn members(rt: HostRuntime) -> Result<(), Fail> {
    let alloc = rt.alloc();
    for tree in [
        group!(alloc; 1: number(7), 4: number(9)),
        group!(alloc; 4: number(9), 1: number(7)),
    ] {
        let bytes = lay_out(alloc, &FIVE, &tree)?;
        assert_eq!(rt; bytes.as_slice(), [0, 7, 0, 0, 9].as_slice());
    }
    let tree = group!(alloc;
        0: group!(alloc; 1: number(2)),
        1: group!(alloc; 1: number(5)),
    );
    let bytes = [0, 0, 0, 2, 0, 0, 5, 0];
    assert_eq!(rt;
        lay_out(alloc, &INSIDE, &tree)?.as_slice(),
        bytes.as_slice()
    );
    assert_eq!(rt; read_bytes(alloc, &INSIDE, &bytes)?, tree);
    Ok(())
}

/// As many elements of no bytes as a number says, which take no time.
const NO_BYTES: Shape = Shape::Struct(&[
    field!("n", Shape::UInt(64)),
    field!("xs", counted!(CountField::Own("n"), 9, &Shape::Nothing)),
]);

#[test]
fn nothing(rt: HostRuntime) -> Result<(), Fail> {
    let alloc = rt.alloc();
    assert_eq!(rt; lay_out(alloc, &PADDED, &Tree::Absent)?.len(), 16);
    assert_eq!(rt; read_bytes(alloc, &PADDED, &[0; 16])?, Tree::Absent);
    assert_eq!(rt; read_bytes(alloc, &Shape::Nothing, &[])?, Tree::Absent);
    let tree = group!(alloc; 0: number(u64::MAX));
    assert_eq!(rt; read_bytes(alloc, &NO_BYTES, &[0xff; 8])?, tree);
    Ok(())
}
