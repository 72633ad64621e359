// Structures.
use super::{Forms, MANY_CONFIG, U8, check_forms};
use ng_parse::TextFault;
use ng_parse::TextFault::{Range, Twice, Unexpected, UnknownField};
use ng_shape::{Field, Shape};
use std::test::Fail;

const LINKS: &[u8] = b"{ xmitAlg=1 failAlg=1 enabledLinks=[ 1 5=1 ] }";

/// Its bytes: 1, 1, and of the links the first and the sixth.
const LINKS_BYTES: [u8; 72] = [
    1, 0, 0, 0, 1, 0, 0, 0, 1, 0, 0, 0, 0, 1, 0, 0, 0, 0, 0, 0, 0, 0, 0, 0, 0, 0, 0, 0, 0, 0, 0, 0,
    0, 0, 0, 0, 0, 0, 0, 0, 0, 0, 0, 0, 0, 0, 0, 0, 0, 0, 0, 0, 0, 0, 0, 0, 0, 0, 0, 0, 0, 0, 0, 0,
    0, 0, 0, 0, 0, 0, 0, 0,
];

/// The bytes of `xmitAlg` 3 and `failAlg` 2.
const CONFIG: [u8; 72] = [
    3, 0, 0, 0, 2, 0, 0, 0, 0, 0, 0, 0, 0, 0, 0, 0, 0, 0, 0, 0, 0, 0, 0, 0, 0, 0, 0, 0, 0, 0, 0, 0,
    0, 0, 0, 0, 0, 0, 0, 0, 0, 0, 0, 0, 0, 0, 0, 0, 0, 0, 0, 0, 0, 0, 0, 0, 0, 0, 0, 0, 0, 0, 0, 0,
    0, 0, 0, 0, 0, 0, 0, 0,
];

const CONFIGS: &[(&[u8], &[u8])] = &[
    (LINKS, &LINKS_BYTES),
    (b"{ failAlg=2 xmitAlg=3 }", &CONFIG),
    (b"{failAlg=2 xmitAlg=3}", &CONFIG),
    (b" { failAlg = 2 xmitAlg\t=\t3 } ", &CONFIG),
    (b"{ enabledLinks=[ ] failAlg=2 xmitAlg=3 }", &CONFIG),
];

const NO_CONFIGS: &[(&[u8], TextFault)] = &[
    (b"{ xmitAlg=1 xmitAlg=2 }", Twice(12)),
    (b"{ zz=1 }", UnknownField(2)),
    (b"{ zz", UnknownField(2)),
    (b"{ xmitAl=1 }", UnknownField(2)),
    (b"{ =1 }", Unexpected(2)),
    (b"{ xmitAlg 1 }", Unexpected(10)),
    (b"{ xmitAlg= }", Unexpected(11)),
    (b"{ xmitAlg=1", Unexpected(11)),
    (b"{ xmitAlg=1 ]", Unexpected(12)),
    (b"{", Unexpected(1)),
    (b"", Unexpected(0)),
    (b"{ } x", Unexpected(4)),
    (b"xmitAlg=1", Unexpected(0)),
    (b"{ xmitAlg=1 zz=2 xmitAlg=3 }", UnknownField(12)),
    (b"{ xmitAlg=99999999999 zz=1 }", Range(10)),
    (b"{ xmitAlg=1b=2 }", Unexpected(10)),
    (b"{ enabledLinks=1 }", Unexpected(15)),
];

/// A byte, and a structure with an integer at a multiple of 4 from its own front and a structure.
const NESTED: Shape = Shape::Struct(&[
    field!("a", U8),
    field!(
        "b",
        Shape::Struct(&[
            field!("c", Shape::UInt(32)),
            field!("d", Shape::Struct(&[field!("e", Shape::Str(2))])),
        ])
    ),
]);

const ALL_NESTED: &[(&[u8], &[u8])] = &[
    (b"{ }", &[0; 12]),
    (b"{ b={ } }", &[0; 12]),
    (b"{ a=0 b={ c=0 d={ e=\"\" } } }", &[0; 12]),
    (
        b"{ a=7 b={ c=513 d={ e=\"x\" } } }",
        &[7, 1, 2, 0, 0, b'x', 0, 0, 0, 0, 0, 0],
    ),
];

const NOT_NESTED: &[(&[u8], TextFault)] = &[
    (b"{ b={ a=1 } }", UnknownField(6)),
    (b"{ b={ } b={ } }", Twice(8)),
];

/// A field that takes no bytes, and one whose name has each mark of a word.
const ODD: Shape = Shape::Struct(&[field!("nil", Shape::Nothing), field!("x-1_:", U8)]);

const NOT_ODD: &[(&[u8], TextFault)] = &[
    (b"{ nil= nil= }", Twice(7)),
    (b"{ nil=1 }", UnknownField(6)),
    (b"{ nil x-1_:=9 }", Unexpected(6)),
];

const TABLE: &[Forms] = &[
    Forms {
        shape: MANY_CONFIG,
        read: CONFIGS,
        fail: NO_CONFIGS,
        print: &[(&LINKS_BYTES, LINKS)],
        ..Forms::NONE
    },
    Forms {
        shape: NESTED,
        read: ALL_NESTED,
        fail: NOT_NESTED,
        come_back: &[b"{ }", b"{ b={ d={ e=\"y\" } } }"],
        ..Forms::NONE
    },
    Forms {
        shape: ODD,
        read: &[(b"{ nil= x-1_:=9 }", &[9])],
        fail: NOT_ODD,
        come_back: &[b"{ x-1_:=9 }"],
        ..Forms::NONE
    },
];

#[test]
fn structures_and_names(rt: HostRuntime) {
    check_forms(&rt, rt.alloc(), TABLE);
}

#[test]
fn faults_have_their_words_and_places(rt: HostRuntime) -> Result<(), Fail> {
    for (fault, words, place) in [
        (Unexpected(3), "unexpected", Some(3)),
        (UnknownField(0), "unknown field", Some(0)),
        (Twice(12), "field twice", Some(12)),
        (Range(1), "out of range", Some(1)),
        (TextFault::TooMany(9), "too many", Some(9)),
        (TextFault::NoMemory, "out of memory", None),
    ] {
        assert_eq!(rt; format!(in rt.alloc(); "{fault}")?.as_str(), words);
        assert_eq!(rt; fault.place(), place);
    }
    Ok(())
}
