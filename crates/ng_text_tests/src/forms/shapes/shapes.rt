// What is a shape: a row for each condition.
use super::U8;
use ng_shape::{CountField, Field, Shape, is_shape};

const PAIR: Shape = Shape::Struct(&[field!("n", U8), field!("m", U8)]);

/// 4, 10 and 16 deep.
const DEEP_4: Shape = Shape::Array(1, &Shape::Array(1, &Shape::Array(1, &U8)));

const DEEP_10: Shape = Shape::Struct(&[
    field!("a", U8),
    field!(
        "b",
        Shape::Array(
            1,
            &Shape::Array(
                1,
                &Shape::Array(1, &Shape::Array(1, &Shape::Array(1, &DEEP_4)))
            )
        )
    ),
]);

const DEEP_16: Shape = Shape::Array(
    1,
    &Shape::Array(
        1,
        &Shape::Array(
            1,
            &Shape::Array(1, &Shape::Array(1, &Shape::Array(1, &DEEP_10))),
        ),
    ),
);

/// Shapes, and whether they are one.
const ROWS: &[(Shape, bool)] = &[
    (Shape::Nothing, true),
    (Shape::Ether, true),
    // Integers of other sizes.
    (Shape::Hex(64), true),
    (Shape::UInt(7), false),
    (Shape::Int(24), false),
    // Strings without room for a NUL, and too long ones.
    (Shape::Str(0), false),
    (Shape::Str(2_147_483_648), true),
    (Shape::Str(2_147_483_649), false),
    // Names that are no words, and names that stand twice.
    (Shape::Struct(&[field!("_-:09azAZ", U8)]), true),
    (Shape::Struct(&[field!("", U8)]), false),
    (Shape::Struct(&[field!("a.b", U8)]), false),
    (Shape::Struct(&[field!("a", U8), field!("a", U8)]), false),
    // Arrays that are counted by no field, by themselves and by no unsigned integer.
    (counted!(CountField::Own("n"), 9, &U8), false),
    (
        Shape::Struct(&[field!("n", counted!(CountField::Own("n"), 9, &U8))]),
        false,
    ),
    (
        Shape::Struct(&[
            field!("n", Shape::Hex(8)),
            field!("xs", counted!(CountField::Own("n"), 9, &U8)),
        ]),
        false,
    ),
    // The greatest length that eight bits can count, and one more.
    (
        Shape::Struct(&[
            field!("n", U8),
            field!("xs", counted!(CountField::Own("n"), 255, &U8)),
        ]),
        true,
    ),
    (
        Shape::Struct(&[
            field!("n", U8),
            field!("xs", counted!(CountField::Own("n"), 256, &U8)),
        ]),
        false,
    ),
    // Counts in an earlier structure, for one array and for two.
    (
        Shape::Struct(&[
            field!("s", PAIR),
            field!("xs", counted!(CountField::Inside("s", "m"), 9, &U8)),
        ]),
        true,
    ),
    (
        Shape::Struct(&[
            field!("s", PAIR),
            field!("xs", counted!(CountField::Inside("s", "m"), 9, &U8)),
            field!("ys", counted!(CountField::Inside("s", "m"), 9, &U8)),
        ]),
        false,
    ),
    (DEEP_16, true),
    (Shape::Array(1, &DEEP_16), false),
];

#[test]
fn shapes(rt: HostRuntime) {
    for (shape, is) in ROWS {
        assert_eq!(rt; is_shape(shape), *is);
    }
}
