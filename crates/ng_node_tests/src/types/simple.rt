// What nodes of each type do with one packet and with a message.
ghost use Rattle.std.specs.Prelude.{◌≡◌, [], IfOk};

use crate::types::bench::try_case;
use crate::types::fields::Field::{self, Bytes};
use crate::types::steps::Case;
use crate::types::steps::Fate::{Out, Refused};
use crate::types::steps::Step::{HasPlan, Hook, Lasts, NoHook, Packet, Tell};
use crate::types::steps::Way::{Hook as ByHook, Plan as ByPlan};
use ng_base::Errno;
use ng_plain_types::simple::{blank_echo, blank_hole, blank_hub, blank_split};
use ng_plan::node::Node;
use std::alloc::Global;
use std::test::Fail;

/// The cookies of the types' messages.
const HUB: u32 = 0x4e47_0001;

const HOLE: u32 = 0x4e47_0002;

const ECHO: u32 = 0x4e47_0003;

const SPLIT: u32 = 0x4e47_0005;

/// A packet.
const DATA: Field = Bytes(&[1, 2, 3]);

const HUB_CASES: &[Case] = &[
    Case {
        shows: "a hub sends out of the others",
        steps: &[
            Hook(b"a"),
            Hook(b"x"),
            HasPlan(true),
            Packet(ByHook(b"a"), &[DATA], Out(&[b"x"])),
        ],
    },
    // setpersistent has the number 1 and no arguments.
    Case {
        shows: "a hub stays after setpersistent",
        steps: &[
            Tell(1, &[Bytes(&[0])], Errno::INVAL),
            Lasts(false),
            Tell(1, &[], Errno::NONE),
            Lasts(true),
        ],
    },
];

#[test]
fn a_hub_sends_out_of_the_others(rt: HostRuntime) -> Result<(), Fail> {
    let alloc = rt.alloc();
    for case in HUB_CASES {
        try_case(&rt, alloc, HUB, blank_hub(alloc)?, case)?;
    }
    Ok(())
}

const ECHO_CASE: Case = Case {
    shows: "an echo sends back",
    steps: &[
        Hook(b"a"),
        HasPlan(true),
        Packet(ByHook(b"a"), &[DATA], Out(&[b"a"])),
    ],
};

#[test]
fn an_echo_sends_back(rt: HostRuntime) -> Result<(), Fail> {
    let alloc = rt.alloc();
    try_case(&rt, alloc, ECHO, blank_echo(alloc)?, &ECHO_CASE)
}

const HOLE_CASE: Case = Case {
    shows: "a hole discards",
    steps: &[
        Hook(b"z"),
        HasPlan(true),
        Packet(ByHook(b"z"), &[DATA], Out(&[])),
    ],
};

#[test]
fn a_hole_discards(rt: HostRuntime) -> Result<(), Fail> {
    let alloc = rt.alloc();
    try_case(&rt, alloc, HOLE, blank_hole(alloc)?, &HOLE_CASE)
}

const SPLIT_CASE: Case = Case {
    shows: "in goes out of mixed, mixed goes out of out, and out is refused",
    steps: &[
        NoHook(b"a"),
        Hook(b"out"),
        Hook(b"in"),
        Hook(b"mixed"),
        Packet(ByHook(b"in"), &[DATA], Out(&[b"mixed"])),
        Packet(ByHook(b"mixed"), &[DATA], Out(&[b"out"])),
        Packet(ByHook(b"out"), &[DATA], Refused(Errno::INVAL)),
    ],
};

#[test]
fn a_split_parts(rt: HostRuntime) -> Result<(), Fail> {
    let alloc = rt.alloc();
    try_case(&rt, alloc, SPLIT, blank_split(alloc)?, &SPLIT_CASE)
}

const BOXED_ECHO: Case = Case {
    shows: "the plan of a box of an echo sends back",
    steps: &[Packet(ByPlan(b"a"), &[DATA], Out(&[b"a"]))],
};

const BOXED_HUB: Case = Case {
    shows: "the plan of a box of a hub without hooks sends nothing",
    steps: &[Packet(ByPlan(b"a"), &[DATA], Out(&[]))],
};

fn boxed_echo(alloc: Global) -> Result<Box<dyn Node + Send>, Fail>
    ensures { IfOk result (λ b. (state b).hooks ≡ []) }
{
    Ok(Box::new(alloc, blank_echo(alloc)?)?)
}

fn boxed_hub(alloc: Global) -> Result<Box<dyn Node + Send>, Fail>
    ensures { IfOk result (λ b. (state b).hooks ≡ []) }
{
    Ok(Box::new(alloc, blank_hub(alloc)?)?)
}

// A box of a node of any type is a node.
#[test]
fn boxes_are_nodes(rt: HostRuntime) -> Result<(), Fail> {
    let alloc = rt.alloc();
    try_case(&rt, alloc, ECHO, boxed_echo(alloc)?, &BOXED_ECHO)?;
    try_case(&rt, alloc, HUB, boxed_hub(alloc)?, &BOXED_HUB)
}
