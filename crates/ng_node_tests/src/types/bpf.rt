// A bpf node on packets and on messages.
use crate::types::bench::try_case;
use crate::types::fields::Field::{self, Bytes, Name, U32, U64, Zeros};
use crate::types::steps::Case;
use crate::types::steps::Fate::Out;
use crate::types::steps::Step::{Ask, Hook, Packet, Tell};
use crate::types::steps::Way::{Hook as ByHook, Plan as ByPlan};
use ng_base::Errno;
use ng_filter_types::bpf::blank_bpf;
use std::test::Fail;

/// The cookie of the type's messages.
const COOKIE: u32 = 0x4e47_000a;

/// The number of setprogram, whose arguments are a hook, the two targets, a count and instructions.
const SET_PROGRAM: u32 = 1;

/// The number of getprogram.
const GET_PROGRAM: u32 = 0x3000_0002;

/// The number of getstats, which is answered by recvFrames, recvOctets, recvMatchFrames, recvMatchOctets, xmitFrames
/// and xmitOctets.
const GET_STATS: u32 = 0x2000_0003;

/// The number of clrstats.
const CLEAR_STATS: u32 = 4;

/// The number of getclrstats.
const GET_AND_CLEAR_STATS: u32 = 0x2000_0005;

/// Loads the first byte. An instruction is its code in 16 bits, the two jumps in 8 each, and a number of 32.
const LOAD_FIRST: Field = Bytes(&[0x30, 0, 0, 0, 0, 0, 0, 0]);

/// Answers what was loaded.
const RETURN_LOADED: Field = Bytes(&[0x16, 0, 0, 0, 0, 0, 0, 0]);

/// Loads the four bytes from the place 100 on.
const LOAD_FAR: Field = Bytes(&[32, 0, 0, 0, 100, 0, 0, 0]);

/// Answers 1.
const RETURN_ONE: Field = Bytes(&[6, 0, 0, 0, 1, 0, 0, 0]);

/// A field for a name that holds none.
const NO_NAME: Field = Zeros(32);

const X: Field = Name(b"x");

const Y: Field = Name(b"y");

const Z: Field = Name(b"z");

/// The name of no hook below.
const W: Field = Name(b"w");

const CASES: &[Case] = &[
    // A load past the packet's end answers 0.
    Case {
        shows: "a short packet does not match",
        steps: &[
            Hook(b"x"),
            Hook(b"y"),
            Hook(b"z"),
            Tell(
                SET_PROGRAM,
                &[X, Y, Z, U32(2), LOAD_FAR, RETURN_ONE],
                Errno::NONE,
            ),
            Packet(ByHook(b"x"), &[Bytes(&[1, 2, 3])], Out(&[b"z"])),
        ],
    },
    Case {
        shows: "a packet whose first byte is 0 does not match, and another does, and they are counted",
        steps: &[
            Hook(b"x"),
            Hook(b"y"),
            Hook(b"z"),
            Tell(
                SET_PROGRAM,
                &[X, Y, Z, U32(2), LOAD_FIRST, RETURN_LOADED],
                Errno::NONE,
            ),
            Packet(ByPlan(b"x"), &[Bytes(&[0, 2, 3])], Out(&[b"z"])),
            Packet(ByPlan(b"x"), &[Bytes(&[1, 2])], Out(&[b"y"])),
            Ask(GET_AND_CLEAR_STATS, &[X], &[U64(&[2, 5, 1, 2, 0, 0])]),
            Ask(GET_AND_CLEAR_STATS, &[X], &[U64(&[0; 6])]),
            Ask(GET_AND_CLEAR_STATS, &[Y], &[U64(&[0, 0, 0, 0, 1, 2])]),
            Ask(GET_AND_CLEAR_STATS, &[Z], &[U64(&[0, 0, 0, 0, 1, 3])]),
        ],
    },
    Case {
        shows: "a program is told as it was set",
        steps: &[
            Hook(b"x"),
            Hook(b"y"),
            Hook(b"z"),
            Tell(
                SET_PROGRAM,
                &[X, Y, NO_NAME, U32(1), RETURN_ONE],
                Errno::NONE,
            ),
            Ask(GET_PROGRAM, &[X], &[X, Y, NO_NAME, U32(1), RETURN_ONE]),
        ],
    },
    // That a hook isn't there comes before a fault of the program, here of one that ends without a return.
    Case {
        shows: "programs are refused",
        steps: &[
            Hook(b"x"),
            Hook(b"y"),
            Hook(b"z"),
            Tell(
                SET_PROGRAM,
                &[X, NO_NAME, NO_NAME, U32(1), RETURN_ONE],
                Errno::NONE,
            ),
            Tell(
                SET_PROGRAM,
                &[X, NO_NAME, NO_NAME, U32(2), RETURN_ONE],
                Errno::INVAL,
            ),
            Tell(
                SET_PROGRAM,
                &[X, NO_NAME, NO_NAME, U32(0), RETURN_ONE],
                Errno::INVAL,
            ),
            Tell(
                SET_PROGRAM,
                &[NO_NAME, NO_NAME, NO_NAME, U32(1), RETURN_ONE],
                Errno::INVAL,
            ),
            Tell(
                SET_PROGRAM,
                &[W, NO_NAME, NO_NAME, U32(1), LOAD_FAR],
                Errno::NOENT,
            ),
            Tell(
                SET_PROGRAM,
                &[X, NO_NAME, NO_NAME, U32(1), LOAD_FAR],
                Errno::INVAL,
            ),
        ],
    },
    Case {
        shows: "messages are about hooks that are there",
        steps: &[
            Hook(b"x"),
            Hook(b"y"),
            Hook(b"z"),
            Tell(GET_PROGRAM, &[X], Errno::NONE),
            Tell(GET_STATS, &[X], Errno::NONE),
            Tell(CLEAR_STATS, &[X], Errno::NONE),
            Tell(GET_PROGRAM, &[W], Errno::NOENT),
            Tell(GET_STATS, &[W], Errno::NOENT),
            Tell(CLEAR_STATS, &[W], Errno::NOENT),
            Tell(GET_AND_CLEAR_STATS, &[W], Errno::NOENT),
            Tell(CLEAR_STATS, &[NO_NAME], Errno::INVAL),
            Tell(CLEAR_STATS, &[Bytes(b"x")], Errno::INVAL),
        ],
    },
];

#[test]
fn a_bpf_sorts_packets_by_a_program(rt: HostRuntime) -> Result<(), Fail> {
    let alloc = rt.alloc();
    for case in CASES {
        try_case(&rt, alloc, COOKIE, blank_bpf(alloc)?, case)?;
    }
    Ok(())
}
