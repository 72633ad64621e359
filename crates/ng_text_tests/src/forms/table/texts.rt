// For each structure of the table a text, its length in bytes, and the text again.
use ng_base::Kind;
use ng_parse::{to_bytes, to_text};
use ng_shape::Shape;
use ng_table::{Row, find_name};
use std::alloc::Global;
use std::process::Abort;
use std::test::Fail;

// A text of the arguments of a message, or of its answer, and its bytes' number.
#[derive(Drop)]
struct Case {
    kind: Kind,
    name: &'static str,
    side: Side,
    text: &'static str,
    len: usize,
}

#[derive(Clone, Copy, PartialEq, Eq)]
enum Side {
    Args,
    Answer,
}

fn shape_of(row: &Row, side: Side) -> &'static Shape {
    match side {
        Side::Args => row.args,
        Side::Answer => row.answer,
    }
}

fn check(rt: &impl Abort, alloc: Global, case: &Case) -> Result<(), Fail> {
    let (_, row) = find_name(case.kind, case.name.as_bytes()).ok_or("no such row")?;
    let shape = shape_of(row, case.side);
    let bytes = to_bytes(alloc, shape, case.text.as_bytes())
        .ok()
        .ok_or("no form")?;
    assert_eq!(rt; bytes.len(), case.len);
    let text = to_text(alloc, shape, &bytes).ok().ok_or("no text")?;
    assert_eq!(rt; text.as_slice(), case.text.as_bytes());
    Ok(())
}

macro_rules! case {
    ($kind:ident, $name:literal, $side:ident, $len:literal, $text:literal) => {
        Case {
            kind: Kind::$kind,
            name: $name,
            side: Side::$side,
            text: $text,
            len: $len,
        }
    };
}

// Generic orders.
const ORDERS: &[Case] = &[
    case!(
        Hole,
        "mkpeer",
        Args,
        96,
        r#"{ type="hub" ourhook="a" peerhook="b" }"#
    ),
    case!(
        Hole,
        "connect",
        Args,
        576,
        r#"{ path="x:y.z" ourhook="a" peerhook="b" }"#
    ),
    case!(Hole, "name", Args, 32, r#"{ name="n" }"#),
    case!(Hole, "rmhook", Args, 32, r#"{ ourhook="a" }"#),
    case!(Hole, "shutdown", Args, 0, ""),
];

// What is told of nodes, hooks and types.
const LISTS: &[Case] = &[
    case!(
        Hole,
        "nodeinfo",
        Answer,
        72,
        r#"{ name="n" type="hub" id=0x1f hooks=2 }"#
    ),
    case!(
        Hole,
        "listhooks",
        Answer,
        208,
        r#"{ nodeinfo={ type="hub" id=0x2 hooks=1 } linkinfo=[ { ourhook="a" peerhook="b" nodeinfo={ name="ngctl" type="socket" id=0x1 hooks=1 } } ] }"#
    ),
    case!(
        Hole,
        "listnames",
        Answer,
        76,
        r#"{ numnames=1 nodeinfo=[ { name="n" type="hub" id=0x2 hooks=1 } ] }"#
    ),
    case!(
        Hole,
        "listtypes",
        Answer,
        76,
        r#"{ numtypes=2 typeinfo=[ { type_name="hub" numnodes=1 } { type_name="hole" } ] }"#
    ),
];

// What is set, and told as it was set.
const CONFIGURATIONS: &[Case] = &[
    case!(
        One2many,
        "setconfig",
        Args,
        72,
        "{ xmitAlg=1 failAlg=1 enabledLinks=[ 1 5=1 ] }"
    ),
    case!(
        Bridge,
        "setconfig",
        Args,
        16,
        "{ debugLevel=1 loopTimeout=60 maxStaleness=900 minStableAge=1 }"
    ),
    case!(
        Vlan,
        "addfilter",
        Args,
        36,
        r#"{ hook="v5" vlan=5 pcp=3 cfi=1 }"#
    ),
    case!(Vlan, "delfilter", Args, 32, r#""v5""#),
    case!(Vlan, "settagtype", Args, 4, "0x88a8"),
    case!(Vlan, "gettagtype", Answer, 4, "0x8100"),
    case!(
        Patch,
        "setconfig",
        Args,
        24,
        "{ count=1 csum_flags=3 ops=[ { offset=12 length=2 mode=1 value=2048 } ] }"
    ),
    case!(
        Bpf,
        "setprogram",
        Args,
        116,
        r#"{ thisHook="in" ifMatch="a" ifNotMatch="b" bpf_prog_len=2 bpf_prog=[ { code=40 jt=1 jf=2 k=12 } { code=6 k=65535 } ] }"#
    ),
    case!(
        Etf,
        "setfilter",
        Args,
        34,
        r#"{ matchhook="ip" ethertype=2048 }"#
    ),
    case!(Macset, "add", Args, 6, "02:00:00:00:00:0a"),
    case!(Macset, "del", Args, 6, "02:00:00:00:00:0a"),
    case!(Ether, "setpromisc", Args, 4, "1"),
    case!(Ether, "getautosrc", Answer, 4, "4294967295"),
];

// Counters.
const STATISTICS: &[Case] = &[
    case!(
        Tee,
        "getstats",
        Answer,
        128,
        "{ right={ inOctets=1 inFrames=2 outOctets=3 outFrames=4 } left={ inOctets=5 } right2left={ outFrames=6 } left2right={ inFrames=7 } }"
    ),
    case!(One2many, "getstats", Args, 4, "-1"),
    case!(
        One2many,
        "getstats",
        Answer,
        40,
        "{ recvOctets=1 recvPackets=2 xmitOctets=3 xmitPackets=4 memoryFailures=18446744073709551615 }"
    ),
    case!(Bridge, "getclrstats", Args, 4, "31"),
    case!(
        Bridge,
        "getclrstats",
        Answer,
        112,
        "{ recvOctets=1 recvPackets=2 recvMulticasts=3 recvBroadcasts=4 recvUnknown=5 recvRunts=6 recvInvalid=7 xmitOctets=8 xmitPackets=9 xmitMulticasts=10 xmitBroadcasts=11 loopDrops=12 loopDetects=13 memoryFailures=14 }"
    ),
    case!(
        Bpf,
        "getstats",
        Answer,
        48,
        "{ recvFrames=1 recvOctets=2 recvMatchFrames=3 recvMatchOctets=4 xmitFrames=5 xmitOctets=6 }"
    ),
    case!(Etf, "getstatus", Answer, 16, "{ inFrames=1 outFrames=2 }"),
    case!(
        Macset,
        "getstats",
        Answer,
        16,
        "{ knownFrames=1 otherFrames=2 }"
    ),
];

// What is learned or set one by one.
const TABLES: &[Case] = &[
    case!(
        Bridge,
        "gettable",
        Answer,
        88,
        r#"{ numHosts=2 hosts=[ { addr=02:00:00:00:00:01 hook="link0" age=1 staleness=2 } { addr=02:00:00:00:00:02 hook="link1" } ] }"#
    ),
    case!(
        Vlan,
        "gettable",
        Answer,
        40,
        r#"{ n=1 filter=[ { hook="v5" vlan=5 pcp=3 } ] }"#
    ),
    case!(
        Etf,
        "gettable",
        Answer,
        72,
        r#"{ n=2 filter=[ { matchhook="ip" ethertype=2048 } { matchhook="arp" ethertype=2054 } ] }"#
    ),
    case!(
        Macset,
        "gettable",
        Answer,
        16,
        "{ n=2 addr=[ 02:00:00:00:00:0a 02:00:00:00:00:0b ] }"
    ),
];

#[test]
fn structures_have_texts(rt: HostRuntime) -> Result<(), Fail> {
    for cases in [ORDERS, LISTS, CONFIGURATIONS, STATISTICS, TABLES] {
        for case in cases {
            check(&rt, rt.alloc(), case)?;
        }
    }
    Ok(())
}
