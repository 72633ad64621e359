// Messages that were put together by hand from the layout.
use ng_base::{Bytes, Kind, Name, NodeId};
use ng_message::{
    GENERIC_COOKIE, Header, LinkInfo, Msg, MsgFault, NodeInfo, VERSION, decode, encode, generic,
    put_link_info, put_name, put_node_info, put_u16, put_u32, put_u64,
};
use std::alloc::Global;
use std::process::Abort;
use std::test::Fail;

/// The start of the bytes of `mkpeer . echo a b` with token 1, up to the token.
const UP_TO_TOKEN: &[u8; 20] =
    b"\x08\x00\x00\x00\x60\x00\x00\x00\x02\x00\x00\x00\x00\x00\x00\x00\x01\x00\x00\x00";

/// The same with version 7.
const UP_TO_TOKEN_7: &[u8; 20] =
    b"\x07\x00\x00\x00\x60\x00\x00\x00\x02\x00\x00\x00\x00\x00\x00\x00\x01\x00\x00\x00";

/// The generic cookie.
const COOKIE: &[u8; 4] = b"\x1e\x51\xc6\x43";

fn command(text: &[u8; 6]) -> [u8; 32] {
    let mut cmdstr = [0; 32];
    cmdstr[..6].copy_from_slice(text);
    cmdstr
}

fn mkpeer_header() -> Header {
    Header {
        version: VERSION,
        spare: 0,
        spare2: 0,
        arglen: 96,
        cmd: generic::MKPEER,
        flags: 0,
        token: 1,
        typecookie: GENERIC_COOKIE,
        cmdstr: command(b"mkpeer"),
    }
}

/// The arguments of `mkpeer . echo a b`: the type, our hook and the peer's.
fn mkpeer_args(alloc: Global) -> Result<Bytes, Fail> {
    let mut args = Vec::new(alloc);
    for text in ["echo", "a", "b"] {
        put_name(&mut args, Some(&Name::read(text.as_bytes())?))?;
    }
    Ok(Bytes(args))
}

/// `mkpeer . echo a b` from the node 1, as bytes.
fn mkpeer_bytes(rt: &impl Abort, alloc: Global) -> Result<Vec<u8>, Fail> {
    let args = mkpeer_args(alloc)?;
    assert_eq!(rt; args.0.len(), 96);
    let header = mkpeer_header();
    assert_eq!(rt; header.version, VERSION);
    assert_eq!(rt; header.arglen, 96);
    assert!(rt; header.cmdstr.contains(&0));
    let msg = Msg {
        from: NodeId(1),
        header,
        args,
    };
    let mut out = Vec::new(alloc);
    encode(alloc, &msg, &mut out)?;
    Ok(out)
}

/// So many bytes, which are zeros but for these parts.
fn zeros_but(alloc: Global, len: usize, parts: &[(usize, &[u8])]) -> Result<Vec<u8>, Fail> {
    let mut bytes = Vec::new(alloc);
    for (at, part) in parts {
        bytes.resize(*at, 0)?;
        bytes.extend_from_slice(part)?;
    }
    bytes.resize(len, 0)?;
    Ok(bytes)
}

/// So many bytes of `mkpeer . echo a b`, by hand, with this start and this name of the command. Zeros follow the message.
fn mkpeer_by_hand(
    alloc: Global,
    start: &'static [u8; 20],
    name: &'static [u8],
    len: usize,
) -> Result<Vec<u8>, Fail> {
    let parts: [(usize, &'static [u8]); 6] = [
        (0, start),
        (20, COOKIE),
        (24, name),
        (56, b"echo"),
        (88, b"a"),
        (120, b"b"),
    ];
    zeros_but(alloc, len, &parts)
}

#[test]
fn mkpeer_has_152_bytes(rt: HostRuntime) -> Result<(), Fail> {
    let out = mkpeer_bytes(&rt, rt.alloc())?;
    let want = mkpeer_by_hand(rt.alloc(), UP_TO_TOKEN, b"mkpeer", 152)?;
    assert_eq!(rt; out.as_slice(), want.as_slice());
    Ok(())
}

#[test]
fn mkpeer_is_read_back(rt: HostRuntime) -> Result<(), Fail> {
    let out = mkpeer_bytes(&rt, rt.alloc())?;
    let msg = decode(rt.alloc(), out.as_slice(), NodeId(7))?;
    assert_eq!(rt; msg.from, NodeId(7));
    assert_eq!(rt; msg.header, mkpeer_header());
    assert_eq!(rt;
        msg.args.0.as_slice(),
        mkpeer_args(rt.alloc())?.0.as_slice()
    );
    Ok(())
}

/// A name of a command that fills its 32 bytes.
const ENDLESS: &[u8] = b"abcdefghijklmnopqrstuvwxyz012345";

/// One byte fewer, so that a NUL follows.
const LONGEST: &[u8] = b"abcdefghijklmnopqrstuvwxyz01234";

/// Starts, names of the command and numbers of bytes, and what is told of such bytes. Of several faults the first is told, in
/// the order of the first four rows.
const MESSAGES: [(&'static [u8; 20], &'static [u8], usize, Option<MsgFault>); 10] = [
    (UP_TO_TOKEN, b"mkpeer", 55, Some(MsgFault::Short(55))),
    (UP_TO_TOKEN_7, b"mkpeer", 152, Some(MsgFault::BadVersion(7))),
    (
        UP_TO_TOKEN,
        b"mkpeer",
        151,
        Some(MsgFault::BadLength(96, 95)),
    ),
    (UP_TO_TOKEN, ENDLESS, 152, Some(MsgFault::NoNul)),
    (UP_TO_TOKEN, LONGEST, 152, None),
    (UP_TO_TOKEN, b"mkpeer", 0, Some(MsgFault::Short(0))),
    (
        UP_TO_TOKEN,
        b"mkpeer",
        153,
        Some(MsgFault::BadLength(96, 97)),
    ),
    (UP_TO_TOKEN_7, ENDLESS, 55, Some(MsgFault::Short(55))),
    (UP_TO_TOKEN_7, ENDLESS, 151, Some(MsgFault::BadVersion(7))),
    (UP_TO_TOKEN, ENDLESS, 151, Some(MsgFault::BadLength(96, 95))),
];

#[test]
fn faults_are_read_from_bytes(rt: HostRuntime) -> Result<(), Fail> {
    for (start, name, len, fault) in &MESSAGES {
        let bytes = mkpeer_by_hand(rt.alloc(), start, name, *len)?;
        let told = decode(rt.alloc(), bytes.as_slice(), NodeId(7)).err();
        assert_eq!(rt; told, *fault, "{len} bytes, {name:?}");
    }
    Ok(())
}

#[test]
fn faults_print(rt: HostRuntime) -> Result<(), Fail> {
    for (fault, text) in [
        (MsgFault::Short(55), "55 bytes are no header"),
        (MsgFault::BadVersion(7), "version 7"),
        (
            MsgFault::BadLength(96, 95),
            "96 bytes of arguments said, 95 there",
        ),
        (MsgFault::NoNul, "the command's name has no end"),
        (MsgFault::NoMemory, "out of memory"),
    ] {
        let printed = format!(in rt.alloc(); "{fault}")?;
        assert_eq!(rt; printed.as_str(), text);
    }
    Ok(())
}

#[test]
fn numbers_are_put_lowest_byte_first(rt: HostRuntime) -> Result<(), Fail> {
    let mut out = Vec::new(rt.alloc());
    out.push(9)?;
    put_u16(&mut out, 0x0201)?;
    put_u32(&mut out, 0x0605_0403)?;
    put_u64(&mut out, 0x0e0d_0c0b_0a09_0807)?;
    let want = [9, 1, 2, 3, 4, 5, 6, 7, 8, 9, 10, 11, 12, 13, 14];
    assert_eq!(rt; out.as_slice(), want.as_slice());
    Ok(())
}

#[test]
fn a_node_is_told_in_72_bytes(rt: HostRuntime) -> Result<(), Fail> {
    let mut out = Vec::new(rt.alloc());
    let bridge = NodeInfo {
        name: Some(Name::read(b"br0")?),
        kind: Some(Kind::Bridge),
        id: NodeId(0x0102_0304),
        hooks: 2,
    };
    put_node_info(&mut out, &bridge)?;
    let parts: [(usize, &[u8]); 3] = [
        (0, b"br0"),
        (32, b"bridge"),
        (64, &[4, 3, 2, 1, 2, 0, 0, 0]),
    ];
    let want = zeros_but(rt.alloc(), 72, &parts)?;
    assert_eq!(rt; out.as_slice(), want.as_slice());
    Ok(())
}

#[test]
fn a_link_is_told_in_136_bytes(rt: HostRuntime) -> Result<(), Fail> {
    let mut out = Vec::new(rt.alloc());
    let link = LinkInfo {
        ourhook: Name::read(b"a")?,
        peerhook: Name::read(b"b")?,
        peer: NodeInfo {
            name: None,
            kind: None,
            id: NodeId(5),
            hooks: 0,
        },
    };
    put_link_info(&mut out, &link)?;
    let parts: [(usize, &[u8]); 3] = [(0, b"a"), (32, b"b"), (128, &[5, 0, 0, 0, 0, 0, 0, 0])];
    let want = zeros_but(rt.alloc(), 136, &parts)?;
    assert_eq!(rt; out.as_slice(), want.as_slice());
    Ok(())
}
