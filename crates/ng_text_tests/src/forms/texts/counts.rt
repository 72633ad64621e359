// Arrays that a field counts.
use super::{Forms, U8, check_forms};
use ng_parse::TextFault;
use ng_parse::TextFault::{Range, TooMany, Unexpected};
use ng_shape::{CountField, Field, Shape};

macro_rules! counted {
    ($by:expr, $max:expr, $element:expr) => {
        Shape::Counted {
            by: $by,
            max: $max,
            element: $element,
        }
    };
}

const COUNTED: Shape = Shape::Struct(&[
    field!("n", Shape::UInt(16)),
    field!("xs", counted!(CountField::Own("n"), 3, &U8)),
]);

const COUNTS: &[(&[u8], &[u8])] = &[
    (b"{ }", &[0, 0]),
    (b"{ n=0 }", &[0, 0]),
    (b"{ xs=[ ] }", &[0, 0]),
    (b"{ xs=[ 7 8 ] }", &[2, 0, 7, 8]),
    (b"{ xs=[ 2=7 ] }", &[3, 0, 0, 0, 7]),
    (b"{ xs=[ 1=7 0=6 ] }", &[2, 0, 6, 7]),
    (b"{ xs=[ 1 0 ] }", &[2, 0, 1, 0]),
    (b"{ xs=[ 7 ] n=3 }", &[3, 0, 7, 0, 0]),
];

const WRONG_COUNTS: &[(&[u8], TextFault)] = &[
    (b"{ n=1 xs=[ 7 8 ] }", TooMany(9)),
    (b"{ n=0 xs=[ 7 ] }", TooMany(9)),
    (b"{ xs=[ 2=1 ] n=2 }", TooMany(5)),
    (b"{ n=4 }", Range(4)),
    (b"{ n=4 xs=[ 7 8 ] }", Range(4)),
    (b"{ xs=[ 1 2 3 4 ] }", TooMany(13)),
    (b"{ xs=[ 3=1 ] }", TooMany(7)),
    (b"{ n=65536 }", Range(4)),
    (b"{ n=9 xs=[ 7 zz", Unexpected(13)),
    (b"{ n=1 xs=[ 7 8 300 ] }", Range(15)),
];

const HEAD: Shape = Shape::Struct(&[field!("k", U8), field!("n", U8)]);

/// The count stands inside of an earlier structure.
const INSIDE: Shape = Shape::Struct(&[
    field!("head", HEAD),
    field!(
        "xs",
        counted!(CountField::Inside("head", "n"), 2, &Shape::UInt(16))
    ),
]);

const INNER_COUNTS: &[(&[u8], &[u8])] = &[
    (b"{ xs=[ 1 2 ] }", &[0, 2, 1, 0, 2, 0]),
    (b"{ head={ k=5 } xs=[ 1 ] }", &[5, 1, 1, 0]),
    (b"{ xs=[ 1 ] head={ k=5 } }", &[5, 1, 1, 0]),
    (b"{ head={ n=2 } }", &[0, 2, 0, 0, 0, 0]),
    (b"{ head={ } xs=[ ] }", &[0, 0]),
];

const WRONG_INNER_COUNTS: &[(&[u8], TextFault)] = &[
    (b"{ head={ n=1 } xs=[ 1 2 ] }", TooMany(18)),
    (b"{ head={ n=3 } }", Range(11)),
];

const TWO: Shape = Shape::Struct(&[
    field!("n", U8),
    field!("xs", counted!(CountField::Own("n"), 2, &U8)),
    field!("m", U8),
    field!("ys", counted!(CountField::Own("m"), 2, &COUNTED)),
]);

/// Of two wrong counts that of the earlier field is told.
const TWO_WRONG: &[(&[u8], TextFault)] = &[
    (b"{ m=3 n=3 }", Range(8)),
    (b"{ ys=[ { n=4 } ] n=3 }", Range(19)),
    (b"{ ys=[ { n=4 } ] m=0 }", TooMany(5)),
    (b"{ ys=[ { n=4 } ] }", Range(11)),
    (b"{ ys=[ 1={ n=4 } 0={ n=5 } ] }", Range(13)),
];

const TABLE: &[Forms] = &[
    Forms {
        shape: COUNTED,
        read: COUNTS,
        fail: WRONG_COUNTS,
        print: &[(&[4, 0, 1, 0, 0, 4], b"{ n=4 xs=[ 1 3=4 ] }")],
        come_back: &[b"{ n=2 xs=[ 7 8 ] }", b"{ n=2 }"],
    },
    Forms {
        shape: INSIDE,
        read: INNER_COUNTS,
        fail: WRONG_INNER_COUNTS,
        come_back: &[b"{ head={ n=2 } xs=[ 1=3 ] }"],
        ..Forms::NONE
    },
    Forms {
        shape: TWO,
        read: &[(b"{ xs=[ 1 ] ys=[ { xs=[ 2 ] } ] }", &[1, 1, 1, 1, 0, 2])],
        fail: TWO_WRONG,
        ..Forms::NONE
    },
];

#[test]
fn counts(rt: HostRuntime) {
    check_forms(&rt, rt.alloc(), TABLE);
}
