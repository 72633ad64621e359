// Every row by its name and by its number, with the lengths of its arguments and of its answer.
use ng_base::Kind;
use ng_shape::{Tree, lay_out};
use ng_table::{Row, cookie_of, find_name, find_number};
use std::alloc::Global;
use std::process::Abort;
use std::test::Fail;

// A name, a number, and how many bytes the arguments and the answer have where all of them are zeros.
type Known = (&'static str, u32, usize, usize);

const GENERIC: u32 = 1_137_070_366;

// The messages that all nodes know.
const GENERIC_ROWS: [Known; 14] = [
    ("shutdown", 1, 0, 0),
    ("mkpeer", 2, 96, 0),
    ("connect", 3, 576, 0),
    ("name", 4, 32, 0),
    ("rmhook", 5, 32, 0),
    ("nodeinfo", 0x3000_0006, 0, 72),
    ("listhooks", 0x3000_0007, 0, 72),
    ("listnames", 0x3000_0008, 0, 4),
    ("listnodes", 0x3000_0009, 0, 4),
    ("listtypes", 0x3000_000a, 0, 4),
    ("textstatus", 0x3000_000b, 0, 0),
    ("binary2ascii", 0x3000_000c, 0, 0),
    ("ascii2binary", 0x3000_000d, 0, 0),
    ("textconfig", 14, 0, 0),
];

// The types of nodes, their cookies and their own messages.
const TYPES: [(Kind, u32, &[Known]); 14] = [
    (Kind::Hub, 0x4e47_0001, &[("setpersistent", 1, 0, 0)]),
    (Kind::Hole, 0x4e47_0002, &[]),
    (Kind::Echo, 0x4e47_0003, &[]),
    (
        Kind::Tee,
        0x4e47_0004,
        &[
            ("getstats", 0x2000_0001, 0, 128),
            ("clrstats", 2, 0, 0),
            ("getclrstats", 0x2000_0003, 0, 128),
        ],
    ),
    (Kind::Split, 0x4e47_0005, &[]),
    (
        Kind::One2many,
        0x4e47_0006,
        &[
            ("setconfig", 1, 72, 0),
            ("getconfig", 0x3000_0002, 0, 72),
            ("getstats", 0x2000_0003, 4, 40),
            ("clrstats", 4, 4, 0),
            ("getclrstats", 0x2000_0005, 4, 40),
        ],
    ),
    (
        Kind::Bridge,
        0x4e47_0007,
        &[
            ("setconfig", 1, 16, 0),
            ("getconfig", 0x3000_0002, 0, 16),
            ("reset", 3, 0, 0),
            ("getstats", 0x2000_0004, 4, 112),
            ("clrstats", 5, 4, 0),
            ("getclrstats", 0x2000_0006, 4, 112),
            ("gettable", 0x2000_0007, 0, 4),
            ("setpersistent", 8, 0, 0),
        ],
    ),
    (
        Kind::Vlan,
        0x4e47_0008,
        &[
            ("addfilter", 1, 36, 0),
            ("delfilter", 2, 32, 0),
            ("gettable", 0x3000_0003, 0, 4),
            ("settagtype", 4, 4, 0),
            ("gettagtype", 0x3000_0005, 0, 4),
        ],
    ),
    (
        Kind::Patch,
        0x4e47_0009,
        &[("setconfig", 1, 8, 0), ("getconfig", 0x3000_0002, 0, 8)],
    ),
    (
        Kind::Bpf,
        0x4e47_000a,
        &[
            ("setprogram", 1, 100, 0),
            ("getprogram", 0x3000_0002, 32, 100),
            ("getstats", 0x2000_0003, 32, 48),
            ("clrstats", 4, 32, 0),
            ("getclrstats", 0x2000_0005, 32, 48),
        ],
    ),
    (
        Kind::Ether,
        0x4e47_000b,
        &[
            ("setpromisc", 1, 4, 0),
            ("getpromisc", 0x3000_0002, 0, 4),
            ("setautosrc", 3, 4, 0),
            ("getautosrc", 0x3000_0004, 0, 4),
        ],
    ),
    (Kind::Socket, 0x4e47_000c, &[]),
    (
        Kind::Etf,
        0x4e47_000d,
        &[
            ("setfilter", 1, 34, 0),
            ("getstatus", 0x2000_0002, 0, 16),
            ("gettable", 0x3000_0003, 0, 4),
        ],
    ),
    (
        Kind::Macset,
        0x4e47_000e,
        &[
            ("add", 1, 6, 0),
            ("del", 2, 6, 0),
            ("gettable", 0x3000_0003, 0, 4),
            ("getstats", 0x2000_0004, 0, 16),
        ],
    ),
];

// How many bytes the arguments and the answer have.
fn lengths(alloc: Global, row: &Row) -> Result<(usize, usize), Fail> {
    let args = lay_out(alloc, row.args, &Tree::Absent)?;
    let answer = lay_out(alloc, row.answer, &Tree::Absent)?;
    Ok((args.len(), answer.len()))
}

// The row is this one, and its cookie and number find it again.
fn check(
    rt: &impl Abort,
    alloc: Global,
    kind: Kind,
    cookie: u32,
    known: Known,
) -> Result<(), Fail> {
    let (name, number, args, answer) = known;
    let (found, row) = find_name(kind, name.as_bytes()).ok_or("no row of the name")?;
    assert_eq!(rt; found, cookie);
    assert_eq!(rt; row.name, name);
    assert_eq!(rt; row.number, number);
    assert_eq!(rt; lengths(alloc, row)?, (args, answer));
    let again = find_number(cookie, number).ok_or("no row of the number")?;
    assert_eq!(rt; again.name, name);
    Ok(())
}

#[test]
fn rows_of_all_nodes(rt: HostRuntime) -> Result<(), Fail> {
    for kind in Kind::ALL {
        for known in GENERIC_ROWS {
            check(&rt, rt.alloc(), kind, GENERIC, known)?;
        }
    }
    Ok(())
}

#[test]
fn rows_of_types(rt: HostRuntime) -> Result<(), Fail> {
    for (kind, cookie, rows) in TYPES {
        assert_eq!(rt; cookie_of(kind), cookie);
        for known in rows {
            check(&rt, rt.alloc(), kind, cookie, *known)?;
        }
    }
    Ok(())
}

#[test]
fn no_such_rows(rt: HostRuntime) {
    for (kind, name) in [
        (Kind::Hub, "getstats"),
        (Kind::Hole, "setpersistent"),
        (Kind::Socket, "getpromisc"),
        (Kind::Bridge, "getstat"),
        (Kind::Bridge, "getstatss"),
        (Kind::Bridge, ""),
        (Kind::Bridge, "GETSTATS"),
        (Kind::Etf, "getstats"),
        (Kind::Macset, "getstatus"),
    ] {
        assert!(rt; find_name(kind, name.as_bytes()).is_none());
    }
    for (cookie, number) in [
        (GENERIC, 0),
        (GENERIC, 6),
        (GENERIC, 15),
        (0x4e47_0001, 2),
        (0x4e47_0004, 1),
        (0x4e47_0007, 0x3000_0007),
        (0x4e47_0003, 1),
        (0x4e47_0000, 1),
        (0x4e47_000f, 1),
        (0, 1),
    ] {
        assert!(rt; find_number(cookie, number).is_none());
    }
}
