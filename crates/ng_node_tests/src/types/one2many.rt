// Packets and messages of a one2many with `one`, `many0` and `many1`.
use crate::types::bench::try_case;
use crate::types::fields::Field::{self, Bytes, U32, U64, Zeros};
use crate::types::steps::Case;
use crate::types::steps::Fate::{Out, Refused};
use crate::types::steps::Step::{Ask, HasPlan, Hook, Packet, Tell};
use crate::types::steps::Way::Hook as By;
use ng_base::Errno;
use ng_switch_types::one2many::blank_one2many;
use std::test::Fail;

/// The cookie of the type's messages.
const COOKIE: u32 = 0x4e47_0006;

const SET_CONFIG: u32 = 1;

const GET_CONFIG: u32 = 0x3000_0002;

const GET_STATS: u32 = 0x2000_0003;

const CLEAR_STATS: u32 = 4;

const GET_AND_CLEAR_STATS: u32 = 0x2000_0005;

/// Links 0, 1 and 5 are enabled. A configuration has this behind the algorithm and the way that failures are told in.
const LINKS: Field = Bytes(&[1, 1, 0, 0, 0, 1]);

/// The other links aren't.
const NO_MORE: Field = Zeros(58);

/// A packet.
const DATA: Field = Bytes(&[1, 2]);

/// The number of `one` in messages about a link: -1.
const ONE: Field = Bytes(&[255; 4]);

const CASES: &[Case] = &[
    // Link 5 is enabled, but its hook isn't there.
    Case {
        shows: "round robin deals packets out to one link after another",
        steps: &[
            Hook(b"one"),
            Hook(b"many0"),
            Hook(b"many1"),
            Tell(SET_CONFIG, &[U32(1), U32(1), LINKS, NO_MORE], Errno::NONE),
            HasPlan(false),
            Packet(By(b"one"), &[DATA], Out(&[b"many0"])),
            Packet(By(b"one"), &[DATA], Out(&[b"many1"])),
            Packet(By(b"one"), &[DATA], Out(&[b"many0"])),
        ],
    },
    Case {
        shows: "all links get each packet",
        steps: &[
            Hook(b"one"),
            Hook(b"many0"),
            Hook(b"many1"),
            Tell(SET_CONFIG, &[U32(2), U32(1), LINKS, NO_MORE], Errno::NONE),
            Packet(By(b"one"), &[DATA], Out(&[b"many0", b"many1"])),
            Packet(By(b"one"), &[DATA], Out(&[b"many0", b"many1"])),
            Packet(By(b"one"), &[DATA], Out(&[b"many0", b"many1"])),
        ],
    },
    Case {
        shows: "the first active link gets each packet",
        steps: &[
            Hook(b"one"),
            Hook(b"many0"),
            Hook(b"many1"),
            Tell(SET_CONFIG, &[U32(3), U32(1), LINKS, NO_MORE], Errno::NONE),
            Packet(By(b"one"), &[DATA], Out(&[b"many0"])),
            Packet(By(b"one"), &[DATA], Out(&[b"many0"])),
            Packet(By(b"one"), &[DATA], Out(&[b"many0"])),
        ],
    },
    // A packet that is refused was received, and one by a link is sent by `one`.
    Case {
        shows: "without an active link there is no connection, and counters are told and cleared",
        steps: &[
            Hook(b"one"),
            Hook(b"many0"),
            Hook(b"many1"),
            Packet(By(b"one"), &[DATA], Refused(Errno::NOTCONN)),
            Packet(By(b"many1"), &[DATA], Out(&[b"one"])),
            Ask(GET_STATS, &[U32(1)], &[U64(&[2, 1, 0, 0, 0])]),
            Ask(GET_AND_CLEAR_STATS, &[ONE], &[U64(&[2, 1, 2, 1, 0])]),
            Ask(GET_STATS, &[ONE], &[U64(&[0; 5])]),
        ],
    },
    Case {
        shows: "links are named by numbers from 0 to 63",
        steps: &[
            Hook(b"one"),
            Hook(b"many0"),
            Hook(b"many1"),
            Tell(CLEAR_STATS, &[U32(0)], Errno::NONE),
            Tell(CLEAR_STATS, &[U32(5)], Errno::NOTCONN),
            Tell(CLEAR_STATS, &[U32(64)], Errno::INVAL),
        ],
    },
    // A link that is enabled by 7 is told as enabled by 1.
    Case {
        shows: "a configuration is told as it was set, and what is refused changes nothing",
        steps: &[
            Hook(b"one"),
            Hook(b"many0"),
            Hook(b"many1"),
            Tell(
                SET_CONFIG,
                &[U32(1), U32(1), Bytes(&[1, 1, 0, 0, 0, 7]), NO_MORE],
                Errno::NONE,
            ),
            Tell(SET_CONFIG, &[U32(0), U32(1), LINKS, NO_MORE], Errno::INVAL),
            Tell(SET_CONFIG, &[U32(4), U32(1), LINKS, NO_MORE], Errno::INVAL),
            Tell(SET_CONFIG, &[U32(2), U32(0), LINKS, NO_MORE], Errno::INVAL),
            Tell(SET_CONFIG, &[U32(2), U32(2), LINKS, NO_MORE], Errno::INVAL),
            Tell(SET_CONFIG, &[Bytes(&[1; 71])], Errno::INVAL),
            Ask(GET_CONFIG, &[], &[U32(1), U32(1), LINKS, NO_MORE]),
        ],
    },
];

#[test]
fn a_one2many_deals_packets_out(rt: HostRuntime) -> Result<(), Fail> {
    let alloc = rt.alloc();
    for case in CASES {
        try_case(&rt, alloc, COOKIE, blank_one2many(alloc)?, case)?;
    }
    Ok(())
}
