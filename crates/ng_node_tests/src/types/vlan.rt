// A vlan node on packets and on messages.
use crate::types::bench::try_case;
use crate::types::fields::Field::{self, Bytes, Name, U16, U32};
use crate::types::steps::Case;
use crate::types::steps::Fate::As;
use crate::types::steps::Step::{Ask, Hook, Packet, Tell};
use crate::types::steps::Way::Hook as By;
use ng_base::Errno;
use ng_switch_types::vlan::blank_vlan;
use std::test::Fail;

/// The cookie of the type's messages.
const COOKIE: u32 = 0x4e47_0008;

/// The number of addfilter, whose arguments are a hook, a VLAN, a priority and a bit in a byte.
const ADD_FILTER: u32 = 1;

/// The number of delfilter.
const DELETE_FILTER: u32 = 2;

/// The number of gettable.
const GET_TABLE: u32 = 0x3000_0003;

/// The number of settagtype.
const SET_TAG_TYPE: u32 = 4;

/// The two addresses of a frame.
const ADDRESSES: Field = Bytes(&[1, 2, 3, 4, 5, 6, 7, 8, 9, 10, 11, 12]);

/// The type of IP.
const IP: Field = Bytes(&[8, 0]);

const CASES: &[Case] = &[
    Case {
        shows: "a frame of VLAN 5 loses its tag, and a frame by the filter's hook gets one",
        steps: &[
            Hook(b"downstream"),
            Hook(b"v5"),
            Tell(
                ADD_FILTER,
                &[Name(b"v5"), U16(5), Bytes(&[0, 0])],
                Errno::NONE,
            ),
            Packet(
                By(b"downstream"),
                &[ADDRESSES, Bytes(&[0x81, 0, 0x20, 5]), IP],
                As(b"v5", &[ADDRESSES, IP]),
            ),
            Packet(
                By(b"v5"),
                &[ADDRESSES, IP],
                As(b"downstream", &[ADDRESSES, Bytes(&[0x81, 0, 0, 5]), IP]),
            ),
        ],
    },
    Case {
        shows: "the type of tags is set to that of service tags, which have a priority",
        steps: &[
            Hook(b"downstream"),
            Hook(b"v5"),
            Tell(SET_TAG_TYPE, &[U32(0x88a8)], Errno::NONE),
            Tell(
                ADD_FILTER,
                &[Name(b"v5"), U16(5), Bytes(&[3, 0])],
                Errno::NONE,
            ),
            Packet(
                By(b"v5"),
                &[ADDRESSES, IP],
                As(
                    b"downstream",
                    &[ADDRESSES, Bytes(&[0x88, 0xa8, 0x60, 5]), IP],
                ),
            ),
            Ask(
                GET_TABLE,
                &[],
                &[U32(1), Name(b"v5"), U16(5), Bytes(&[3, 0])],
            ),
            Tell(SET_TAG_TYPE, &[U32(0x9100)], Errno::INVAL),
        ],
    },
    Case {
        shows: "filters are refused",
        steps: &[
            Hook(b"v5"),
            Hook(b"v6"),
            Tell(
                ADD_FILTER,
                &[Name(b"v5"), U16(5), Bytes(&[7, 1])],
                Errno::NONE,
            ),
            Tell(
                ADD_FILTER,
                &[Name(b"v6"), U16(4_096), Bytes(&[0, 0])],
                Errno::INVAL,
            ),
            Tell(
                ADD_FILTER,
                &[Name(b"v6"), U16(6), Bytes(&[8, 0])],
                Errno::INVAL,
            ),
            Tell(
                ADD_FILTER,
                &[Name(b"v6"), U16(6), Bytes(&[0, 2])],
                Errno::INVAL,
            ),
            Tell(
                ADD_FILTER,
                &[Name(b"nomatch"), U16(6), Bytes(&[0, 0])],
                Errno::INVAL,
            ),
            Tell(
                ADD_FILTER,
                &[Name(b"v7"), U16(6), Bytes(&[0, 0])],
                Errno::NOENT,
            ),
            Tell(
                ADD_FILTER,
                &[Name(b"v5"), U16(6), Bytes(&[0, 0])],
                Errno::EXIST,
            ),
            Tell(
                ADD_FILTER,
                &[Name(b"v6"), U16(5), Bytes(&[0, 0])],
                Errno::EXIST,
            ),
            Tell(DELETE_FILTER, &[Name(b"v6")], Errno::NOENT),
            Tell(DELETE_FILTER, &[Name(b"v5")], Errno::NONE),
            Ask(GET_TABLE, &[], &[U32(0)]),
        ],
    },
];

#[test]
fn a_vlan_parts_and_tags_frames(rt: HostRuntime) -> Result<(), Fail> {
    let alloc = rt.alloc();
    for case in CASES {
        try_case(&rt, alloc, COOKIE, blank_vlan(alloc)?, case)?;
    }
    Ok(())
}
