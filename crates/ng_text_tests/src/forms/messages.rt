// Messages by their names, as a script has them.
use ng_base::Kind;
use ng_table::reading::{Found, read_message};
use std::test::Fail;

// Why these are no arguments of the message. That of a hub has none.
const WRONG: [(Kind, &str, &str, &str); 7] = [
    (
        Kind::One2many,
        "setconfig",
        "{ xmitAlg=1 xmitAlg=2 }",
        "bad arguments at 12: field twice",
    ),
    (
        Kind::One2many,
        "setconfig",
        "{ xmit=1 }",
        "bad arguments at 2: unknown field",
    ),
    (
        Kind::One2many,
        "setconfig",
        "{ xmitAlg=4294967296 }",
        "bad arguments at 10: out of range",
    ),
    (
        Kind::One2many,
        "setconfig",
        "{ enabledLinks=[ 64=1 ] }",
        "bad arguments at 17: too many",
    ),
    (
        Kind::One2many,
        "setconfig",
        "",
        "bad arguments at 0: unexpected",
    ),
    (
        Kind::One2many,
        "setconfig",
        "{",
        "bad arguments at 1: unexpected",
    ),
    (
        Kind::Hub,
        "setpersistent",
        "1",
        "bad arguments at 0: unexpected",
    ),
];

#[test]
fn wrong_arguments_are_told(rt: HostRuntime) -> Result<(), Fail> {
    for (kind, name, text, why) in WRONG {
        let found = read_message(rt.alloc(), kind, name.as_bytes(), text.as_bytes())?;
        let Found::Wrong(words) = found else {
            return Err(Fail::from("not refused"));
        };
        assert_eq!(rt; words.0.as_slice(), why.as_bytes());
    }
    Ok(())
}

#[test]
fn message_is_read(rt: HostRuntime) -> Result<(), Fail> {
    let found = read_message(rt.alloc(), Kind::Macset, b"add", b"02:00:00:00:00:0a")?;
    let Found::Message {
        cookie,
        number,
        args,
    } = found
    else {
        return Err(Fail::from("refused"));
    };
    assert_eq!(rt; (cookie, number), (0x4e47_000e, 1));
    assert_eq!(rt; args.0.as_slice(), [2, 0, 0, 0, 0, 10].as_slice());
    Ok(())
}

#[test]
fn unknown_message(rt: HostRuntime) -> Result<(), Fail> {
    let found = read_message(rt.alloc(), Kind::Hub, b"getstats", b"")?;
    assert!(rt; matches!(found, Found::Unknown));
    Ok(())
}
