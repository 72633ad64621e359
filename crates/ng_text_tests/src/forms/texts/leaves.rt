// Integers, strings, addresses, and nothing.
use super::{Forms, U8, check_forms};
use ng_parse::TextFault;
use ng_parse::TextFault::{Range, Unexpected};
use ng_shape::Shape;

const BYTES: &[(&[u8], &[u8])] = &[
    (b"0", &[0]),
    (b"255", &[255]),
    (b" \t7\t ", &[7]),
    (b"0xff", &[255]),
    (b"0xFf", &[255]),
    (b"0x0000000000000001", &[1]),
    (b"010", &[8]),
    (b"00", &[0]),
    (b"0017", &[15]),
    (b"0377", &[255]),
];

const NO_BYTES: &[(&[u8], TextFault)] = &[
    (b"", Unexpected(0)),
    (b" \t", Unexpected(2)),
    (b"0x", Unexpected(0)),
    (b"0X1", Unexpected(0)),
    (b"08", Unexpected(0)),
    (b"-1", Unexpected(0)),
    (b"-0", Unexpected(0)),
    (b"+7", Unexpected(0)),
    (b"12a", Unexpected(0)),
    (b"1:2", Unexpected(0)),
    (b"0x11111111111111111", Unexpected(0)),
    (b"7 8", Unexpected(2)),
    (b"7,", Unexpected(1)),
    (b"256", Range(0)),
    (b"  256", Range(2)),
    (b"0x100", Range(0)),
    (b"0400", Range(0)),
    (b"18446744073709551616", Range(0)),
    (b"99999999999999999999999999999999999999999999", Range(0)),
    (
        b"0777777777777777777777777777777777777777777777777",
        Range(0),
    ),
];

const INTEGERS: &[Forms] = &[
    Forms {
        shape: U8,
        read: BYTES,
        fail: NO_BYTES,
        ..Forms::NONE
    },
    Forms {
        shape: Shape::UInt(64),
        read: &[(b"18446744073709551615", &[255; 8])],
        fail: &[(b"18446744073709551616", Range(0))],
        ..Forms::NONE
    },
    Forms {
        shape: Shape::Hex(32),
        read: &[(b"42", &[42, 0, 0, 0])],
        ..Forms::NONE
    },
    Forms {
        shape: Shape::Hex(16),
        read: &[(b"0xBEef", &[0xef, 0xbe])],
        ..Forms::NONE
    },
    Forms {
        shape: Shape::Hex(8),
        fail: &[(b"-1", Unexpected(0))],
        ..Forms::NONE
    },
    Forms {
        shape: Shape::Int(8),
        read: SIGNED,
        fail: NOT_SIGNED,
        ..Forms::NONE
    },
    Forms {
        shape: Shape::Int(16),
        read: &[(b"-2", &[0xfe, 0xff])],
        ..Forms::NONE
    },
    Forms {
        shape: Shape::Int(64),
        read: &[(b"-9223372036854775808", &[0, 0, 0, 0, 0, 0, 0, 0x80])],
        ..Forms::NONE
    },
];

#[test]
fn integers(rt: HostRuntime) {
    check_forms(&rt, rt.alloc(), INTEGERS);
}

const SIGNED: &[(&[u8], &[u8])] = &[
    (b"127", &[0x7f]),
    (b"-128", &[0x80]),
    (b"-0", &[0]),
    (b"-1", &[0xff]),
    (b"-0x80", &[0x80]),
    (b"-010", &[0xf8]),
];

const NOT_SIGNED: &[(&[u8], TextFault)] = &[
    (b"128", Range(0)),
    (b"-129", Range(0)),
    (b"-99999999999999999999999", Range(0)),
    (b"--1", Unexpected(0)),
    (b"-", Unexpected(0)),
    (b"1-", Unexpected(0)),
];

const STRINGS: &[(&[u8], &[u8])] = &[
    (b"\"abc\"", b"abc\0"),
    (b"\"\"", b"\0\0\0\0"),
    (b"\"a\\\"b\"", b"a\"b\0"),
    (b"\"\\\\\"", b"\\\0\0\0"),
    (b"\"\\n\\t\\r\"", b"\n\t\r\0"),
    (b"\"\\x41\\xfF\"", b"\x41\xff\0\0"),
    (b"\"\xc3\xa9\"", b"\xc3\xa9\0\0"),
    (b"\" { \"", b" { \0"),
];

const NO_STRINGS: &[(&[u8], TextFault)] = &[
    (b"abc", Unexpected(0)),
    (b"\"abcd\"", Range(0)),
    (b" \"abcd\"", Range(1)),
    (b"\"\\x00\"", Range(0)),
    (b"\"a\0\"", Range(0)),
    (b"\"\\q\"", Unexpected(1)),
    (b"\"a\\x4\"", Unexpected(2)),
    (b"\"a\\xg0\"", Unexpected(2)),
    (b"\"\\x4", Unexpected(1)),
    (b"\"\\", Unexpected(1)),
    (b"\"", Unexpected(1)),
    (b"\"abc", Unexpected(4)),
    (b"\"abcd", Range(0)),
    (b"\"abc\\q", Unexpected(4)),
    (b"\"abcd\\q\"", Range(0)),
    (b"\"a\\q\\x00\"", Unexpected(2)),
    (b"\"\\x00\\q\"", Range(0)),
    (b"\"a\"b", Unexpected(3)),
];

const ADDRESSES: &[(&[u8], &[u8])] = &[
    (b"00:11:22:33:44:55", &[0, 0x11, 0x22, 0x33, 0x44, 0x55]),
    (b"0:1:2:a:B:f", &[0, 1, 2, 10, 11, 15]),
    (b" ff:FF:0:0:0:0 ", &[255, 255, 0, 0, 0, 0]),
];

const NO_ADDRESSES: &[(&[u8], TextFault)] = &[
    (b"", Unexpected(0)),
    (b"00:11:22:33:44", Unexpected(0)),
    (b"00:11:22:33:44:", Unexpected(0)),
    (b"00:11:22:33:44:55:66", Unexpected(0)),
    (b"00:11:22:33:44:555", Unexpected(0)),
    (b" 00:11:22:33:44:5g", Unexpected(1)),
    (b"00::22:33:44:55", Unexpected(0)),
    (b"00-11-22-33-44-55", Unexpected(0)),
];

const NO_TOKEN: &[(&[u8], TextFault)] = &[(b"x", Unexpected(0)), (b" { }", Unexpected(1))];

const OTHERS: &[Forms] = &[
    Forms {
        shape: Shape::Str(4),
        read: STRINGS,
        fail: NO_STRINGS,
        ..Forms::NONE
    },
    Forms {
        shape: Shape::Ether,
        read: ADDRESSES,
        fail: NO_ADDRESSES,
        ..Forms::NONE
    },
    Forms {
        shape: Shape::Nothing,
        read: &[(b"", &[]), (b" \t ", &[])],
        fail: NO_TOKEN,
        ..Forms::NONE
    },
];

#[test]
fn strings_addresses_and_nothing(rt: HostRuntime) {
    check_forms(&rt, rt.alloc(), OTHERS);
}
