// What a bridge knows and tells after frames, time and messages.
use crate::types::bench::try_case;
use crate::types::fields::Field::{self, Bytes, Name, U16, U32, U64, Zeros};
use crate::types::steps::Case;
use crate::types::steps::Fate::Out;
use crate::types::steps::Step::{Ask, Hook, Packet, Tell, Wait};
use crate::types::steps::Way::Hook as By;
use ng_base::Errno;
use ng_switch_types::bridge::blank_bridge;
use std::test::Fail;

/// The cookie of the type's messages.
const COOKIE: u32 = 0x4e47_0007;

/// Addresses of hosts.
const A: Field = Bytes(&[2, 0, 0, 0, 0, 0x0a]);

const B: Field = Bytes(&[2, 0, 0, 0, 0, 0x0b]);

const C: Field = Bytes(&[2, 0, 0, 0, 0, 0x0c]);

/// The address of all hosts.
const ALL: Field = Bytes(&[0xff; 6]);

/// What makes the shortest frame of two addresses.
const REST: Field = Zeros(2);

/// `debugLevel` 1, `loopTimeout` 60, `maxStaleness` 2 and `minStableAge` 1.
const CONFIG: Field = Bytes(&[1, 0, 0, 0, 60, 0, 0, 0, 2, 0, 0, 0, 1, 0, 0, 0]);

const CASES: &[Case] = &[
    // The ages and the staleness of A and B after five frames among A, B and C.
    Case {
        shows: "a bridge learns where hosts are",
        steps: &[
            Hook(b"link0"),
            Hook(b"link1"),
            Packet(By(b"link0"), &[ALL, A, REST], Out(&[b"link1"])),
            Wait(1),
            Packet(By(b"link1"), &[A, B, REST], Out(&[b"link0"])),
            Wait(2),
            Packet(By(b"link1"), &[A, B, REST], Out(&[b"link0"])),
            Wait(1),
            Packet(By(b"link0"), &[C, A, REST], Out(&[b"link1"])),
            Wait(1),
            Packet(By(b"link1"), &[ALL, B, REST], Out(&[b"link0"])),
            Ask(
                0x2000_0007,
                &[],
                &[
                    U32(2),
                    A,
                    Name(b"link0"),
                    U16(5),
                    U16(1),
                    B,
                    Name(b"link1"),
                    U16(4),
                    U16(0),
                ],
            ),
        ],
    },
    // A host that comes by another link at once is a loop: the link is mute for a minute.
    Case {
        shows: "a loop mutes a link",
        steps: &[
            Hook(b"link0"),
            Hook(b"link1"),
            Packet(By(b"link0"), &[ALL, A, REST], Out(&[b"link1"])),
            Packet(By(b"link1"), &[ALL, A, REST], Out(&[])),
            Wait(60),
            Packet(By(b"link1"), &[ALL, B, REST], Out(&[b"link0"])),
            Ask(
                0x2000_0004,
                &[U32(1)],
                &[U64(&[28, 2, 0, 2, 0, 0, 0, 14, 1, 0, 1, 1, 1, 0])],
            ),
        ],
    },
    // A frame of 13 bytes is too short, and one of 262,144 isn't too long.
    Case {
        shows: "sizes are counted",
        steps: &[
            Hook(b"link0"),
            Hook(b"link1"),
            Packet(By(b"link0"), &[ALL, A, Zeros(1)], Out(&[])),
            Packet(By(b"link0"), &[ALL, A, Zeros(262_132)], Out(&[b"link1"])),
            Ask(
                0x2000_0006,
                &[U32(0)],
                &[U64(&[262_157, 2, 0, 1, 0, 1, 0, 0, 0, 0, 0, 0, 0, 0])],
            ),
            Ask(0x2000_0004, &[U32(0)], &[U64(&[0; 14])]),
        ],
    },
    // With a limit of 2 seconds a host is forgotten after 2 in which it wasn't seen. It is told with A on link0 for two
    // seconds, and not seen in the last.
    Case {
        shows: "a host that is not seen is forgotten",
        steps: &[
            Hook(b"link0"),
            Hook(b"link1"),
            Tell(1, &[CONFIG], Errno::NONE),
            Packet(By(b"link0"), &[ALL, A, REST], Out(&[b"link1"])),
            Wait(1),
            Packet(By(b"link0"), &[ALL, A, REST], Out(&[b"link1"])),
            Wait(1),
            Ask(
                0x2000_0007,
                &[],
                &[U32(1), A, Name(b"link0"), U16(2), U16(1)],
            ),
            Wait(1),
            Ask(0x2000_0007, &[], &[U32(0)]),
        ],
    },
    // The configuration is told as it was set.
    Case {
        shows: "messages are answered or refused",
        steps: &[
            Hook(b"link0"),
            Hook(b"link1"),
            Tell(1, &[CONFIG], Errno::NONE),
            Ask(0x3000_0002, &[], &[CONFIG]),
            Tell(1, &[Zeros(15)], Errno::INVAL),
            Tell(3, &[Zeros(1)], Errno::INVAL),
            Tell(0x2000_0004, &[U32(32)], Errno::INVAL),
            Tell(0x2000_0004, &[U32(31)], Errno::NOTCONN),
            Tell(5, &[Zeros(3)], Errno::INVAL),
            Tell(8, &[], Errno::NONE),
            Tell(9, &[], Errno::INVAL),
            Ask(0x3000_0002, &[], &[CONFIG]),
        ],
    },
];

#[test]
fn a_bridge_learns_and_counts(rt: HostRuntime) -> Result<(), Fail> {
    let alloc = rt.alloc();
    for case in CASES {
        try_case(&rt, alloc, COOKIE, blank_bridge(alloc)?, case)?;
    }
    Ok(())
}
