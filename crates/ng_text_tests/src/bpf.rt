// What no clause says: that the definitions mean bpf(4)'s machine, and that calls succeed where there is memory.

use ng_bpf_vm::{BadProgram, Fault, Insn, run, validate};
use programs::Row;
use std::alloc::{AllocError, Global};
use std::test::Fail;

mod frames;
mod programs;

// The instructions of rows.
fn insns_of(alloc: Global, rows: &[Row]) -> Result<Vec<Insn>, AllocError> {
    let mut insns = Vec::new(alloc);
    for &(code, jt, jf, k) in rows {
        insns.push(Insn { code, jt, jf, k })?;
    }
    Ok(insns)
}

// What the program of these rows answers.
fn answer(alloc: Global, rows: &[Row], packet: &[u8]) -> Result<u32, Fail> {
    let insns = insns_of(alloc, rows)?;
    let program = validate(alloc, &insns)?;
    Ok(run(&program, packet))
}

// The first fault of these rows.
fn fault_of(alloc: Global, rows: &[Row]) -> Result<Option<BadProgram>, Fail> {
    let insns = insns_of(alloc, rows)?;
    Ok(validate(alloc, &insns).err())
}

#[test]
fn faults(rt: HostRuntime) -> Result<(), Fail> {
    let cases: [(&[Row], usize, Fault); 14] = [
        (&[], 0, Fault::Empty),
        (&[(0x06, 0, 0, 0); 513], 513, Fault::TooLong),
        (&[(0xff, 0, 0, 0)], 0, Fault::UnknownCode),
        (&[(0x05, 0, 0, 1), (0x06, 0, 0, 0)], 0, Fault::JumpOut),
        (
            &[(0x05, 0, 0, 0xffff_ffff), (0x06, 0, 0, 0)],
            0,
            Fault::JumpOut,
        ),
        (&[(0x15, 0, 1, 0), (0x06, 0, 0, 0)], 0, Fault::JumpOut),
        (&[(0x2d, 1, 0, 0), (0x06, 0, 0, 0)], 0, Fault::JumpOut),
        (&[(0x60, 0, 0, 16), (0x06, 0, 0, 0)], 0, Fault::BadWord),
        (&[(0x03, 0, 0, 16), (0x06, 0, 0, 0)], 0, Fault::BadWord),
        (&[(0x34, 0, 0, 0), (0x06, 0, 0, 0)], 0, Fault::ZeroDivisor),
        (&[(0x94, 0, 0, 0), (0x06, 0, 0, 0)], 0, Fault::ZeroDivisor),
        (&[(0x20, 0, 0, 0)], 0, Fault::NoReturn),
        (
            &[(0x06, 0, 0, 0), (0x02, 0, 0, 16), (0xff, 0, 0, 0)],
            1,
            Fault::BadWord,
        ),
        (
            &[(0x06, 0, 0, 0), (0x16, 0, 0, 0), (0x87, 0, 0, 0)],
            2,
            Fault::NoReturn,
        ),
    ];
    for (rows, at, why) in cases {
        assert_eq!(rt;
            fault_of(rt.alloc(), rows)?,
            Some(BadProgram::Bad { at, why }),
            "{why:?}"
        );
    }
    Ok(())
}

#[test]
fn valid_programs(rt: HostRuntime) -> Result<(), Fail> {
    let cases: [&[Row]; 4] = [
        &[(0x06, 0, 0, 0); 512],
        &[(0x05, 0, 0, 0), (0x16, 0, 0, 0)],
        &[
            (0x61, 0, 0, 15),
            (0x3c, 0, 0, 0),
            (0x9c, 0, 0, 0),
            (0x06, 0, 0, 0),
        ],
        &[
            (0x06, 7, 7, 7),
            (0x15, 1, 0, 0),
            (0x06, 0, 0, 0),
            (0x06, 0, 0, 0),
        ],
    ];
    for rows in cases {
        let insns = insns_of(rt.alloc(), rows)?;
        let program = validate(rt.alloc(), &insns)?;
        assert_eq!(rt; program.insns(), insns.as_slice());
        assert_eq!(rt; program.clone()?.insns(), insns.as_slice());
    }
    Ok(())
}

#[test]
fn error_texts(rt: HostRuntime) -> Result<(), Fail> {
    let bad = BadProgram::Bad {
        at: 3,
        why: Fault::JumpOut,
    };
    assert_eq!(rt;
        bad.to_string(rt.alloc())?.as_str(),
        "jump past the end at 3"
    );
    let no_memory = BadProgram::NoMemory.to_string(rt.alloc())?;
    assert_eq!(rt; no_memory.as_str(), "out of memory");
    Ok(())
}

// Whether the first of these rows is refused for its code.
fn is_unknown(alloc: Global, rows: &[Row]) -> Result<bool, Fail> {
    Ok(match fault_of(alloc, rows)? {
        Some(BadProgram::Bad { at, why }) => at == 0 && why == Fault::UnknownCode,
        _ => false,
    })
}

// The codes that bpf(4) lists, and no others.
#[test]
fn codes(rt: HostRuntime) -> Result<(), Fail> {
    let codes: [u16; 49] = [
        0x00, 0x01, 0x02, 0x03, 0x04, 0x05, 0x06, 0x07, 0x0c, 0x14, 0x15, 0x16, 0x1c, 0x1d, 0x20,
        0x24, 0x25, 0x28, 0x2c, 0x2d, 0x30, 0x34, 0x35, 0x3c, 0x3d, 0x40, 0x44, 0x45, 0x48, 0x4c,
        0x4d, 0x50, 0x54, 0x5c, 0x60, 0x61, 0x64, 0x6c, 0x74, 0x7c, 0x80, 0x81, 0x84, 0x87, 0x94,
        0x9c, 0xa4, 0xac, 0xb1,
    ];
    for code in 0..=u16::MAX {
        let rows = [(code, 0, 0, 0), (0x06, 0, 0, 0)];
        assert_eq!(rt;
            is_unknown(rt.alloc(), &rows)?,
            !codes.contains(&code),
            "at {code}"
        );
    }
    Ok(())
}

const RETURN_A: Row = (0x16, 0, 0, 0);

const RETURN_9: Row = (0x06, 0, 0, 9);

#[test]
fn loads(rt: HostRuntime) -> Result<(), Fail> {
    let packet = [0x12, 0x34, 0x56, 0x78, 0x9a, 0xbc, 0xde, 0xf0];
    let cases: [(&[Row], u32); 25] = [
        (&[(0x20, 0, 0, 0), RETURN_A], 0x1234_5678),
        (&[(0x20, 0, 0, 4), RETURN_A], 0x9abc_def0),
        (&[(0x20, 0, 0, 5), RETURN_9], 0),
        (&[(0x20, 0, 0, 0xffff_ffff), RETURN_9], 0),
        (&[(0x28, 0, 0, 6), RETURN_A], 0xdef0),
        (&[(0x28, 0, 0, 7), RETURN_9], 0),
        (&[(0x30, 0, 0, 7), RETURN_A], 0xf0),
        (&[(0x30, 0, 0, 8), RETURN_9], 0),
        (&[(0x01, 0, 0, 3), (0x40, 0, 0, 1), RETURN_A], 0x9abc_def0),
        (&[(0x01, 0, 0, 3), (0x48, 0, 0, 1), RETURN_A], 0x9abc),
        (&[(0x01, 0, 0, 3), (0x50, 0, 0, 1), RETURN_A], 0x9a),
        (&[(0x01, 0, 0, 4), (0x40, 0, 0, 1), RETURN_9], 0),
        (&[(0x01, 0, 0, 0xffff_ffff), (0x50, 0, 0, 1), RETURN_9], 0),
        (&[(0x01, 0, 0, 1), (0x50, 0, 0, 0xffff_ffff), RETURN_9], 0),
        (&[(0x00, 0, 0, 0xdead_beef), RETURN_A], 0xdead_beef),
        (&[(0x80, 0, 0, 1), RETURN_A], 8),
        (&[(0x81, 0, 0, 1), (0x87, 0, 0, 0), RETURN_A], 8),
        (&[(0xb1, 0, 0, 1), (0x87, 0, 0, 0), RETURN_A], 16),
        (&[(0xb1, 0, 0, 2), (0x87, 0, 0, 0), RETURN_A], 24),
        (&[(0xb1, 0, 0, 6), (0x87, 0, 0, 0), RETURN_A], 56),
        (&[(0xb1, 0, 0, 8), RETURN_9], 0),
        (&[(0x00, 0, 0, 1), (0x60, 0, 0, 15), RETURN_A], 0),
        (
            &[
                (0x00, 0, 0, 5),
                (0x02, 0, 0, 15),
                (0x00, 0, 0, 1),
                (0x60, 0, 0, 15),
                RETURN_A,
            ],
            5,
        ),
        (
            &[(0x01, 0, 0, 6), (0x03, 0, 0, 0), (0x60, 0, 0, 0), RETURN_A],
            6,
        ),
        (
            &[
                (0x00, 0, 0, 7),
                (0x02, 0, 0, 3),
                (0x61, 0, 0, 3),
                (0x00, 0, 0, 1),
                (0x87, 0, 0, 0),
                RETURN_A,
            ],
            7,
        ),
    ];
    for (rows, wanted) in cases {
        assert_eq!(rt; answer(rt.alloc(), rows, &packet)?, wanted, "{rows:?}");
    }
    Ok(())
}

#[test]
fn operators(rt: HostRuntime) -> Result<(), Fail> {
    let cases: [(u16, u32, u32, u32); 19] = [
        (0x04, 0xffff_ffff, 2, 1),
        (0x14, 1, 2, 0xffff_ffff),
        (0x14, 9, 2, 7),
        (0x24, 0x1_0000, 0x1_0001, 0x1_0000),
        (0x34, 7, 2, 3),
        (0x34, 0xffff_ffff, 0x10, 0x0fff_ffff),
        (0x44, 0xf0, 0x3c, 0xfc),
        (0x54, 0xf0, 0x3c, 0x30),
        (0x64, 3, 31, 0x8000_0000),
        (0x64, 3, 32, 0),
        (0x64, 3, 0xffff_ffff, 0),
        (0x64, 3, 0, 3),
        (0x74, 0x8000_0000, 31, 1),
        (0x74, 0x8000_0000, 32, 0),
        (0x74, 0x8000_0000, 64, 0),
        (0x74, 0x8000_0000, 0, 0x8000_0000),
        (0x94, 7, 4, 3),
        (0x94, 0xffff_ffff, 0x10, 0x0f),
        (0xa4, 0xf0, 0x3c, 0xcc),
    ];
    for (code, left, right, wanted) in cases {
        let constant = [(0x00, 0, 0, left), (code, 0, 0, right), RETURN_A];
        assert_eq!(rt;
            answer(rt.alloc(), &constant, &[])?,
            wanted,
            "{code} {left} {right}"
        );
        let index = [
            (0x00, 0, 0, left),
            (0x01, 0, 0, right),
            (code | 0x08, 0, 0, 0),
            RETURN_A,
        ];
        assert_eq!(rt;
            answer(rt.alloc(), &index, &[])?,
            wanted,
            "{code} {left} {right}"
        );
    }
    for code in [0x3c, 0x9c] {
        let by_zero = [(0x00, 0, 0, 7), (code, 0, 0, 2), RETURN_9];
        assert_eq!(rt; answer(rt.alloc(), &by_zero, &[])?, 0, "{code}");
    }
    for (value, wanted) in [(0, 0), (1, 0xffff_ffff), (0x8000_0000, 0x8000_0000)] {
        let negated = [(0x00, 0, 0, value), (0x84, 0, 0, 0), RETURN_A];
        assert_eq!(rt; answer(rt.alloc(), &negated, &[])?, wanted, "-{value}");
    }
    Ok(())
}

#[test]
fn jumps(rt: HostRuntime) -> Result<(), Fail> {
    let cases: [(u16, u32, u32, bool); 11] = [
        (0x15, 5, 5, true),
        (0x15, 5, 6, false),
        (0x25, 6, 5, true),
        (0x25, 5, 5, false),
        (0x25, 0x8000_0000, 1, true),
        (0x35, 5, 5, true),
        (0x35, 4, 5, false),
        (0x35, 0xffff_ffff, 0, true),
        (0x45, 6, 4, true),
        (0x45, 6, 9, false),
        (0x45, 6, 12, true),
    ];
    for (code, left, right, holds) in cases {
        let wanted = if holds { 21 } else { 22 };
        let ends = [(0x06, 0, 0, 20), (0x06, 0, 0, 21), (0x06, 0, 0, 22)];
        let constant = [
            (0x00, 0, 0, left),
            (code, 1, 2, right),
            ends[0],
            ends[1],
            ends[2],
        ];
        assert_eq!(rt;
            answer(rt.alloc(), &constant, &[])?,
            wanted,
            "{code} {left} {right}"
        );
        let index = [
            (0x00, 0, 0, left),
            (0x01, 0, 0, right),
            (code | 0x08, 1, 2, 0),
            ends[0],
            ends[1],
            ends[2],
        ];
        assert_eq!(rt;
            answer(rt.alloc(), &index, &[])?,
            wanted,
            "{code} {left} {right}"
        );
    }
    let over = [
        (0x05, 0, 0, 1),
        (0x06, 0, 0, 1),
        (0x06, 0, 0, 2),
        (0x06, 0, 0, 3),
    ];
    assert_eq!(rt; answer(rt.alloc(), &over, &[])?, 2);
    let copies = [
        (0x00, 0, 0, 5),
        (0x07, 0, 0, 0),
        (0x00, 0, 0, 1),
        (0x87, 0, 0, 0),
        RETURN_A,
    ];
    assert_eq!(rt; answer(rt.alloc(), &copies, &[])?, 5);
    Ok(())
}

// Each of tcpdump's filters matches the frames that its expression means, with 262,144 as its answer, and no others.
#[test]
fn filters_of_tcpdump(rt: HostRuntime) -> Result<(), Fail> {
    let filters: [&[Row]; 9] = [
        &programs::ARP,
        &programs::IP,
        &programs::TCP_DST_PORT_80,
        &programs::VLAN_AND_IP,
        &programs::ETHER_HOST,
        &programs::IP6,
        &programs::UDP_PORTRANGE,
        &programs::GREATER_100,
        &programs::ICMP,
    ];
    let cases: [(&str, &[u8], [u8; 9]); 15] = [
        (
            "an ARP request to everyone",
            &frames::ARP_REQUEST,
            [1, 0, 0, 0, 0, 0, 0, 0, 0],
        ),
        (
            "TCP over IPv4 to port 80",
            &frames::WEB_REQUEST,
            [0, 1, 1, 0, 1, 0, 0, 0, 0],
        ),
        (
            "TCP over IPv4 from port 80",
            &frames::WEB_REPLY,
            [0, 1, 0, 0, 1, 0, 0, 0, 0],
        ),
        (
            "TCP over IPv4 to port 80, with four bytes of IP options",
            &frames::WEB_OPTIONS,
            [0, 1, 1, 0, 0, 0, 0, 0, 0],
        ),
        (
            "a later fragment of TCP over IPv4, whose bytes look like port 80",
            &frames::WEB_FRAGMENT,
            [0, 1, 0, 0, 0, 0, 0, 0, 0],
        ),
        (
            "TCP over IPv6 to port 80",
            &frames::WEB_REQUEST_6,
            [0, 0, 1, 0, 0, 1, 0, 0, 0],
        ),
        (
            "UDP over IPv4 to port 1500",
            &frames::UDP_INSIDE,
            [0, 1, 0, 0, 0, 0, 1, 0, 0],
        ),
        (
            "UDP over IPv4 between ports 999 and 2001",
            &frames::UDP_OUTSIDE,
            [0, 1, 0, 0, 0, 0, 0, 0, 0],
        ),
        (
            "UDP over IPv6 from port 1000",
            &frames::UDP_INSIDE_6,
            [0, 0, 0, 0, 0, 1, 1, 0, 0],
        ),
        (
            "an ICMP echo request",
            &frames::PING,
            [0, 1, 0, 0, 0, 0, 0, 0, 1],
        ),
        (
            "IPv4 with a VLAN tag",
            &frames::TAGGED_IP,
            [0, 0, 0, 1, 0, 0, 0, 0, 0],
        ),
        (
            "ARP with a VLAN tag",
            &frames::TAGGED_ARP,
            [0, 0, 0, 0, 0, 0, 0, 0, 0],
        ),
        (
            "IPv4 with a service tag",
            &frames::SERVICE_TAGGED_IP,
            [0, 0, 0, 1, 0, 0, 0, 0, 0],
        ),
        (
            "UDP over IPv4, 100 bytes in all",
            &frames::LONG,
            [0, 1, 0, 0, 0, 0, 1, 1, 0],
        ),
        (
            "UDP over IPv4, 99 bytes in all",
            &frames::ALMOST_LONG,
            [0, 1, 0, 0, 0, 0, 0, 0, 0],
        ),
    ];
    for (name, frame, matches) in cases {
        for (filter, wanted) in filters.iter().zip(matches) {
            let kept = if wanted == 1 { 262_144 } else { 0 };
            assert_eq!(rt;
                answer(rt.alloc(), filter, frame)?,
                kept,
                "{name} {filter:?}"
            );
        }
    }
    Ok(())
}
