// A patch node on packets and on messages.
use crate::types::bench::try_case;
use crate::types::fields::Field::{Bytes, U16, U32, U64};
use crate::types::steps::Case;
use crate::types::steps::Fate::As;
use crate::types::steps::Step::{Ask, Hook, NoHook, Packet, Tell};
use crate::types::steps::Way::Hook as By;
use ng_base::Errno;
use ng_filter_types::patch::blank_patch;
use std::test::Fail;

/// The cookie of the type's messages.
const COOKIE: u32 = 0x4e47_0009;

/// The number of setconfig, whose arguments are a count, flags, and of each operation the offset, the length, the mode
/// and the value.
const SET_CONFIG: u32 = 1;

/// The number of getconfig.
const GET_CONFIG: u32 = 0x3000_0002;

/// The arguments of setconfig.
macro_rules! config {
    ($count:literal, $flags:literal; $(($offset:literal, $length:literal, $mode:literal, $value:literal)),*) => {
        &[
            U32($count),
            U32($flags),
            $(U32($offset), U16($length), U16($mode), U64(&[$value])),*
        ]
    };
}

const CASES: &[Case] = &[
    Case {
        shows: "a first byte is raised by one, and an operation past the packet's end does nothing",
        steps: &[
            NoHook(b"mixed"),
            Hook(b"in"),
            Hook(b"out"),
            Tell(
                SET_CONFIG,
                config!(2, 0; (0, 1, 2, 1), (100, 4, 1, 7)),
                Errno::NONE,
            ),
            Packet(
                By(b"in"),
                &[Bytes(&[255, 2])],
                As(b"out", &[Bytes(&[0, 2])]),
            ),
            Ask(GET_CONFIG, &[], config!(2, 0; (0, 1, 2, 1), (100, 4, 1, 7))),
        ],
    },
    // A count that isn't that of the operations, flags, and what can't be done.
    Case {
        shows: "each refusal of setconfig leaves the operations as they were",
        steps: &[
            Tell(SET_CONFIG, config!(1, 0; (1, 2, 5, 3)), Errno::NONE),
            Tell(SET_CONFIG, config!(2, 0; (0, 1, 2, 1)), Errno::INVAL),
            Tell(SET_CONFIG, config!(0, 0; (0, 1, 2, 1)), Errno::INVAL),
            Tell(SET_CONFIG, config!(1, 1; (0, 1, 2, 1)), Errno::INVAL),
            Tell(SET_CONFIG, config!(1, 0; (0, 3, 2, 1)), Errno::INVAL),
            Tell(SET_CONFIG, config!(1, 0; (0, 1, 0, 1)), Errno::INVAL),
            Tell(SET_CONFIG, config!(1, 0; (0, 1, 12, 1)), Errno::INVAL),
            Tell(SET_CONFIG, config!(1, 0; (0, 1, 5, 256)), Errno::INVAL),
            Ask(GET_CONFIG, &[], config!(1, 0; (1, 2, 5, 3))),
        ],
    },
];

#[test]
fn a_patch_changes_bytes(rt: HostRuntime) -> Result<(), Fail> {
    let alloc = rt.alloc();
    for case in CASES {
        try_case(&rt, alloc, COOKIE, blank_patch(alloc)?, case)?;
    }
    Ok(())
}
