// The text of bytes.
use super::{MANY_CONFIG, U8, check_print};
use ng_parse::to_text;
use ng_shape::{BytesFault, Field, Shape};

const FOUR: Shape = Shape::Array(4, &U8);

/// A byte, 3 of padding, 4 of an integer, 3 of a string, and 1 of padding at the end.
const PADDED: Shape = Shape::Struct(&[
    field!("a", U8),
    field!("b", Shape::UInt(32)),
    field!("c", Shape::Str(3)),
]);

/// Its bytes, with nines that stand for nothing.
const PADDED_BYTES: [u8; 12] = [1, 9, 9, 9, 2, 0, 0, 0, b'x', 0, b'y', 9];

const ROWS: &[(Shape, &[u8], &[u8])] = &[
    (U8, &[0], b"0"),
    (U8, &[255], b"255"),
    (Shape::UInt(64), &[255; 8], b"18446744073709551615"),
    (Shape::Int(8), &[0x7f], b"127"),
    (Shape::Int(8), &[0x80], b"-128"),
    (Shape::Int(16), &[0xfe, 0xff], b"-2"),
    (
        Shape::Int(64),
        &[0, 0, 0, 0, 0, 0, 0, 0x80],
        b"-9223372036854775808",
    ),
    (Shape::Hex(32), &[0xef, 0xbe, 0, 0], b"0xbeef"),
    (Shape::Hex(8), &[0], b"0x0"),
    (Shape::Nothing, &[], b""),
    (Shape::Str(4), &[0; 4], b"\"\""),
    (Shape::Str(4), b"a\0bc", b"\"a\""),
    (Shape::Str(3), b"abc", b"\"abc\""),
    (
        Shape::Str(8),
        b"a\"\\\n\x7f ~\0",
        b"\"a\\\"\\\\\\x0a\\x7f ~\"",
    ),
    (Shape::Str(3), b"\x1f\xff\0", b"\"\\x1f\\xff\""),
    (Shape::Ether, &[0; 6], b"00:00:00:00:00:00"),
    (
        Shape::Ether,
        &[0, 1, 0x2a, 255, 16, 9],
        b"00:01:2a:ff:10:09",
    ),
    (FOUR, &[0, 0, 0, 0], b"[ ]"),
    (FOUR, &[1, 2, 3, 4], b"[ 1 2 3 4 ]"),
    (FOUR, &[0, 5, 6, 0], b"[ 1=5 6 ]"),
    (FOUR, &[1, 0, 3, 0], b"[ 1 2=3 ]"),
    (FOUR, &[0, 0, 0, 9], b"[ 3=9 ]"),
    (FOUR, &[0, 1, 0, 1], b"[ 1=1 3=1 ]"),
    (MANY_CONFIG, &[0; 72], b"{ }"),
    (PADDED, &PADDED_BYTES, b"{ a=1 b=2 c=\"x\" }"),
];

#[test]
fn bytes_are_printed(rt: HostRuntime) {
    for (shape, bytes, text) in ROWS {
        check_print(&rt, rt.alloc(), shape, bytes, text);
    }
}

#[test]
fn bytes_are_too_few_or_too_many(rt: HostRuntime) {
    for (from, need) in [(0, 1), (1, 4), (4, 8), (8, 11), (11, 12)] {
        for had in from..need {
            let short = PADDED_BYTES.get(..had).unwrap_or(&PADDED_BYTES);
            assert_eq!(rt;
                to_text(rt.alloc(), &PADDED, short).err(),
                Some(BytesFault::Short { need, had })
            );
        }
    }
    assert_eq!(rt;
        to_text(rt.alloc(), &PADDED, &[0; 15]).err(),
        Some(BytesFault::Trailing(3))
    );
}
