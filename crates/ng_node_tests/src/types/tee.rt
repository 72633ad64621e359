// A tee on packets and on messages.
use crate::types::bench::try_case;
use crate::types::fields::Field::{Bytes, U64};
use crate::types::steps::Case;
use crate::types::steps::Fate::Out;
use crate::types::steps::Step::{Ask, Beside, Hook, NoHook, Packet};
use crate::types::steps::Way::Hook as By;
use ng_plain_types::tee::blank_tee;
use std::test::Fail;

/// The cookie of the type's messages.
const COOKIE: u32 = 0x4e47_0004;

/// The number of getstats, which is answered by inOctets, inFrames, outOctets and outFrames of right, left, right2left
/// and left2right.
const GET_STATS: u32 = 0x2000_0001;

/// The number of getclrstats.
const GET_AND_CLEAR_STATS: u32 = 0x2000_0003;

const CASES: &[Case] = &[
    Case {
        shows: "a tee copies and counts",
        steps: &[
            NoHook(b"middle"),
            Hook(b"left"),
            Hook(b"right"),
            Hook(b"left2right"),
            Packet(
                By(b"left"),
                &[Bytes(&[1, 2])],
                Out(&[b"left2right", b"right"]),
            ),
            Ask(
                GET_AND_CLEAR_STATS,
                &[],
                &[U64(&[0, 0, 2, 1, 2, 1, 0, 0, 0, 0, 0, 0, 0, 0, 2, 1])],
            ),
            Ask(GET_STATS, &[], &[U64(&[0; 16])]),
        ],
    },
    Case {
        shows: "counts come in either order",
        steps: &[
            Hook(b"left"),
            Hook(b"right"),
            Beside((b"left", &[Bytes(&[1])]), (b"right", &[Bytes(&[2, 3])])),
            Ask(
                GET_STATS,
                &[],
                &[U64(&[2, 1, 1, 1, 1, 1, 2, 1, 0, 0, 0, 0, 0, 0, 0, 0])],
            ),
        ],
    },
];

#[test]
fn a_tee_copies_and_counts(rt: HostRuntime) -> Result<(), Fail> {
    let alloc = rt.alloc();
    for case in CASES {
        try_case(&rt, alloc, COOKIE, blank_tee(alloc)?, case)?;
    }
    Ok(())
}
