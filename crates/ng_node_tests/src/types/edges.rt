// Packets at the edges of a graph, and the messages of an ether.
use crate::types::bench::try_case;
use crate::types::fields::Field::{self, Bytes};
use crate::types::steps::Case;
use crate::types::steps::Fate::{Leaves, Out};
use crate::types::steps::Step::{Ask, HasPlan, Hook, NoHook, Packet, Tell};
use crate::types::steps::Way::{Hook as ByHook, Wire as ByWire};
use ng_base::Errno;
use ng_machine::Exit;
use ng_plain_types::edge::{blank_ether, blank_socket};
use std::test::Fail;

/// The cookie of an ether's messages.
const ETHER: u32 = 0x4e47_000b;

/// The cookie of a socket, which has no messages.
const SOCKET: u32 = 0x4e47_000c;

/// A packet.
const DATA: Field = Bytes(&[1, 2, 3]);

const ETHER_CASES: &[Case] = &[
    // What comes by the wire goes out of lower, and to the host where there is no lower. What comes by lower goes to the
    // wire.
    Case {
        shows: "an ether passes between the wire and `lower`",
        steps: &[
            NoHook(b"orphans"),
            Packet(ByWire, &[DATA], Leaves(Exit::Host)),
            Hook(b"lower"),
            HasPlan(true),
            Packet(ByWire, &[DATA], Out(&[b"lower"])),
            Packet(ByHook(b"lower"), &[DATA], Leaves(Exit::Wire)),
        ],
    },
    // setpromisc has the number 1, setautosrc 3, and getpromisc 2 with the bits of a reader and of an answer.
    Case {
        shows: "an ether keeps a number",
        steps: &[
            Tell(1, &[Bytes(&[1, 0, 0, 0])], Errno::NONE),
            Tell(3, &[Bytes(&[1, 0])], Errno::INVAL),
            Ask(0x3000_0002, &[], &[Bytes(&[1, 0, 0, 0])]),
        ],
    },
];

#[test]
fn an_ether_is_at_the_wire(rt: HostRuntime) -> Result<(), Fail> {
    let alloc = rt.alloc();
    for case in ETHER_CASES {
        try_case(&rt, alloc, ETHER, blank_ether(alloc)?, case)?;
    }
    Ok(())
}

const SOCKET_CASE: Case = Case {
    shows: "a socket hands over",
    steps: &[
        Hook(b"a"),
        HasPlan(true),
        Packet(ByHook(b"a"), &[DATA], Leaves(Exit::Reader)),
    ],
};

#[test]
fn a_socket_hands_over(rt: HostRuntime) -> Result<(), Fail> {
    let alloc = rt.alloc();
    try_case(&rt, alloc, SOCKET, blank_socket(alloc)?, &SOCKET_CASE)
}
