// Tables of addresses: what is read, and what is told of invalid ones.
use ng_base::{Name, NameFault, NodeId};
use ng_path::{Head, Hooks, PathFault, read_path};
use std::alloc::{AllocError, Global};
use std::test::Fail;

const LONGEST: &str = "abcdefghijklmnopqrstuvwxyz01234";

/// Whether the names are these.
fn are_named(mut hooks: Hooks<'_>, names: &[&str]) -> bool {
    for name in names {
        match hooks.next() {
            Some(hook) if hook.as_str() == *name => {}
            _ => return false,
        }
    }
    hooks.next().is_none()
}

/// The head of an address.
enum Start {
    Local,
    Id(u32),
    Named(&'static str),
}

fn head_of(start: &Start) -> Result<Head, NameFault> {
    Ok(match start {
        Start::Local => Head::Local,
        Start::Id(number) => Head::Id(NodeId(*number)),
        Start::Named(name) => Head::Named(Name::read(name.as_bytes())?),
    })
}

/// Addresses, their heads, and the names of their hooks.
const ADDRESSES: [(&str, Start, &[&str]); 20] = [
    ("br0:link0.", Start::Named("br0"), &["link0"]),
    ("[a]:", Start::Id(10), &[]),
    ("[0A]:", Start::Id(10), &[]),
    ("[0000000a]:", Start::Id(10), &[]),
    ("[ffFF0123]:x", Start::Id(4_294_902_051), &["x"]),
    ("[0]:.x", Start::Id(0), &["x"]),
    (".", Start::Local, &[]),
    (".:", Start::Local, &[]),
    (".:.", Start::Local, &[]),
    (".a.", Start::Local, &["a"]),
    ("a.b", Start::Local, &["a", "b"]),
    ("a", Start::Local, &["a"]),
    (".:a.b.c", Start::Local, &["a", "b", "c"]),
    ("a:", Start::Named("a"), &[]),
    ("a:.", Start::Named("a"), &[]),
    ("a:.a.b.", Start::Named("a"), &["a", "b"]),
    ("a:[1].x[y", Start::Named("a"), &["[1]", "x[y"]),
    ("[a", Start::Local, &["[a"]),
    ("x[1]:!.~", Start::Named("x[1]"), &["!", "~"]),
    (
        "abcdefghijklmnopqrstuvwxyz01234:abcdefghijklmnopqrstuvwxyz01234",
        Start::Named(LONGEST),
        &[LONGEST],
    ),
];

// Each address gives its names twice.
#[test]
fn addresses_are_read(rt: HostRuntime) -> Result<(), Fail> {
    for (text, start, names) in &ADDRESSES {
        let path = read_path(text.as_bytes())?;
        assert!(rt; path.head == head_of(start)?, "the head of {text:?}");
        assert!(rt; are_named(path.hooks.iter(), names), "in {text:?}");
        assert!(rt; are_named(path.hooks, names), "in {text:?}");
    }
    Ok(())
}

#[test]
fn faults_of_text_are_told(rt: HostRuntime) {
    for (text, fault) in [
        ("", PathFault::BadName(0)),
        (":", PathFault::EmptyNode),
        (":x", PathFault::EmptyNode),
        ("::", PathFault::EmptyNode),
        (":a..b:", PathFault::EmptyNode),
        (".:a..b", PathFault::TwoDots(3)),
        ("..", PathFault::TwoDots(0)),
        ("...", PathFault::TwoDots(0)),
        ("..a", PathFault::TwoDots(0)),
        ("a..", PathFault::TwoDots(1)),
        ("a.b...c..d", PathFault::TwoDots(3)),
        (".:..", PathFault::TwoDots(2)),
        ("a:.b..:", PathFault::TwoDots(4)),
        ("a:b:c", PathFault::SecondColon(3)),
        ("a::", PathFault::SecondColon(2)),
        ("a:.:", PathFault::SecondColon(3)),
        ("a:b.::..", PathFault::SecondColon(4)),
        ("..:", PathFault::BadName(0)),
        ("a.b:c", PathFault::BadName(0)),
        ("a b:c:d", PathFault::BadName(0)),
        ("[g]:", PathFault::BadName(0)),
        ("[]:", PathFault::BadName(0)),
        ("[123456789]:", PathFault::BadName(0)),
        ("[000000001]:", PathFault::BadName(0)),
        ("[+1]:", PathFault::BadName(0)),
        ("[0x1]:", PathFault::BadName(0)),
        ("[:", PathFault::BadName(0)),
        ("[a:", PathFault::BadName(0)),
        ("[a]b:", PathFault::BadName(0)),
        ("a:x.b c..d", PathFault::BadName(4)),
        ("a:x..b c", PathFault::TwoDots(3)),
        ("x.\x7f", PathFault::BadName(2)),
        (" ", PathFault::BadName(0)),
        ("a:b. :", PathFault::BadName(4)),
        ("abcdefghijklmnopqrstuvwxyz012345:", PathFault::BadName(0)),
        (".a.abcdefghijklmnopqrstuvwxyz012345", PathFault::BadName(3)),
    ] {
        assert_eq!(rt; read_path(text.as_bytes()).err(), Some(fault), "{text:?}");
    }
}

/// So many bytes of a piece that comes again and again, at most 1,024 times.
fn repeated(alloc: Global, piece: &str, len: usize) -> Result<Vec<u8>, AllocError> {
    let mut bytes = Vec::new(alloc);
    for _ in 0..1024 {
        bytes.extend_from_slice(piece.as_bytes())?;
    }
    bytes.truncate(len);
    Ok(bytes)
}

// An address and three that begin with a fault, of 511 bytes and of one more.
#[test]
fn more_than_511_bytes_are_too_long(rt: HostRuntime) -> Result<(), Fail> {
    for (piece, len, fault) in [
        ("a.", 511, None),
        ("a.", 512, Some(PathFault::TooLong)),
        (":", 511, Some(PathFault::EmptyNode)),
        (":", 512, Some(PathFault::TooLong)),
        (".", 511, Some(PathFault::TwoDots(0))),
        (".", 512, Some(PathFault::TooLong)),
        (" ", 511, Some(PathFault::BadName(0))),
        (" ", 512, Some(PathFault::TooLong)),
    ] {
        let text = repeated(rt.alloc(), piece, len)?;
        assert_eq!(rt; text.len(), len);
        assert_eq!(rt; read_path(&text).err(), fault, "{len} bytes of {piece:?}");
    }
    Ok(())
}
