// Arrays of a length that is fixed.
use super::{Forms, MANY_CONFIG, U8, check_fault, check_forms, check_return};
use ng_parse::TextFault;
use ng_parse::TextFault::{Range, TooMany, Twice, Unexpected, UnknownField};
use ng_shape::{Field, Shape};

const THREE: Shape = Shape::Array(3, &U8);

const ELEMENTS: &[(&[u8], &[u8])] = &[
    (b"[ 1 2 3 ]", &[1, 2, 3]),
    (b"[1 2 3]", &[1, 2, 3]),
    (b"[]", &[0, 0, 0]),
    (b"[ ]", &[0, 0, 0]),
    (b"[ 2=9 ]", &[0, 0, 9]),
    (b"[ 1=5 6 ]", &[0, 5, 6]),
    (b"[ 2 = 9 0\t=\t1 ]", &[1, 0, 9]),
    (b"[ 0x2=1 ]", &[0, 0, 1]),
    (b"[ 02=1 0=4 5 ]", &[4, 5, 1]),
];

const NO_ELEMENTS: &[(&[u8], TextFault)] = &[
    (b"[ 1 2 3 4 ]", TooMany(8)),
    (b"[ 3=1 ]", TooMany(2)),
    (b"[ 4=1 ]", TooMany(2)),
    (b"[ 99999999999999999999=1 ]", TooMany(2)),
    (b"[ 3=300 ]", TooMany(2)),
    (b"[ 3=zz ]", TooMany(2)),
    (b"[ 1 0=2 ]", Twice(4)),
    (b"[ 1=1 0=1 2 ]", Twice(10)),
    (b"[ 1=1 0=1 300 ]", Twice(10)),
    (b"[ 1=1 0=1 } ", Unexpected(10)),
    (b"[ 1=1 1=300 ]", Twice(6)),
    (b"[ 1 2 3 300 ]", Range(8)),
    (b"[ 1 2 3 }", Unexpected(8)),
    (b"[ 1 }", Unexpected(4)),
    (b"[ foo=1 ]", Unexpected(2)),
    (b"[ -1=1 ]", Unexpected(2)),
    (b"[ =1 ]", Unexpected(2)),
    (b"[ 0=300 ]", Range(4)),
    (b"[ 0= ]", Unexpected(5)),
    (b"[ 1 2=300 zz", Range(6)),
    (b"[ 1", Unexpected(3)),
    (b"1 ]", Unexpected(0)),
];

/// A configuration whose 64 links are given, and then this.
macro_rules! sixty_four {
    ($end:literal) => {
        concat!(
            "{ enabledLinks=[ 1 1 1 1 1 1 1 1 1 1 1 1 1 1 1 1 1 1 1 1 1 1 1 1 1 1 1 1 1 1 1 1 ",
            "1 1 1 1 1 1 1 1 1 1 1 1 1 1 1 1 1 1 1 1 1 1 1 1 1 1 1 1 1 1 1 1 ",
            $end
        )
    };
}

/// What stands behind the last link, and its fault.
const NO_LINKS: [(&str, TextFault); 5] = [
    (sixty_four!("1 ] }"), TooMany(145)),
    (sixty_four!("300 ] }"), Range(145)),
    (sixty_four!("} }"), Unexpected(145)),
    (sixty_four!("5=1 ] }"), Twice(145)),
    (sixty_four!("64=1 ] }"), TooMany(145)),
];

#[test]
fn sixty_fifth_link(rt: HostRuntime) {
    for (text, fault) in NO_LINKS {
        check_fault(&rt, rt.alloc(), &MANY_CONFIG, text.as_bytes(), fault);
    }
    let all = sixty_four!("] }").as_bytes();
    check_return(&rt, rt.alloc(), &MANY_CONFIG, all);
}

/// Structures of 4 bytes.
const PAIRS: Shape = Shape::Array(
    3,
    &Shape::Struct(&[field!("a", U8), field!("b", Shape::UInt(16))]),
);

const TWO_PAIRS: &[(&[u8], &[u8])] = &[
    (
        b"[ { a=1 } 2={ b=2 } ]",
        &[1, 0, 0, 0, 0, 0, 0, 0, 0, 0, 2, 0],
    ),
    (
        b"[ 1= { a=1 } { a=2 } ]",
        &[0, 0, 0, 0, 1, 0, 0, 0, 2, 0, 0, 0],
    ),
];

const NO_PAIRS: &[(&[u8], TextFault)] = &[
    (b"[ 5 { } ]", Unexpected(4)),
    (b"[ 5 ]", Unexpected(4)),
    (b"[ 5", Unexpected(3)),
    (b"[ x { } ]", Unexpected(2)),
    (b"[ { } { } { } { zz=1 } ]", TooMany(14)),
    (b"[ { } { } { } 5 }", TooMany(14)),
    (b"[ { } { } { } ( ]", Unexpected(14)),
    (b"[ { zz=1 } ]", UnknownField(4)),
];

const NOTHINGS: Shape = Shape::Array(2, &Shape::Nothing);

const NO_NOTHINGS: &[(&[u8], TextFault)] = &[
    (b"[ 2= ]", TooMany(2)),
    (b"[ 5 ]", Unexpected(4)),
    (b"[ x ]", Unexpected(2)),
];

const TABLE: &[Forms] = &[
    Forms {
        shape: THREE,
        read: ELEMENTS,
        fail: NO_ELEMENTS,
        ..Forms::NONE
    },
    Forms {
        shape: MANY_CONFIG,
        come_back: &[b"{ enabledLinks=[ 63=255 ] }"],
        ..Forms::NONE
    },
    Forms {
        shape: PAIRS,
        read: TWO_PAIRS,
        fail: NO_PAIRS,
        come_back: &[b"[ 1={ a=1 b=2 } { b=515 } ]"],
        ..Forms::NONE
    },
    Forms {
        shape: NOTHINGS,
        read: &[(b"[ ]", &[]), (b"[ 0= 1= ]", &[])],
        fail: NO_NOTHINGS,
        ..Forms::NONE
    },
    Forms {
        shape: Shape::Array(2, &Shape::Str(2)),
        fail: &[(b"[ \"a\" 5 ]", Unexpected(8))],
        come_back: &[b"[ 1=\"b\" ]"],
        ..Forms::NONE
    },
    Forms {
        shape: Shape::Array(2, &Shape::Array(2, &U8)),
        fail: &[(b"[ [ 1 2 3 ] ]", TooMany(8))],
        come_back: &[b"[ [ 1 2 ] [ 1=4 ] ]"],
        ..Forms::NONE
    },
    Forms {
        shape: Shape::Array(2, &Shape::Ether),
        fail: &[(b"[ 0:1 ]", Unexpected(2))],
        come_back: &[b"[ 1=00:11:22:33:44:55 ]"],
        ..Forms::NONE
    },
    Forms {
        shape: Shape::Array(3, &Shape::Int(8)),
        fail: &[(b"[ 1 -129 ]", Range(4))],
        come_back: &[b"[ -1 2=-128 ]"],
        ..Forms::NONE
    },
];

#[test]
fn arrays(rt: HostRuntime) {
    check_forms(&rt, rt.alloc(), TABLE);
}
