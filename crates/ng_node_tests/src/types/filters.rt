// An etf and a macset on packets and on messages.
use crate::types::bench::{Bench, try_case};
use crate::types::fields::Field::{self, Bytes, Name, U16, U32, U64};
use crate::types::steps::Case;
use crate::types::steps::Fate::{Out, Refused};
use crate::types::steps::Step::{self, Ask, Cut, Hook, Packet, Tell};
use crate::types::steps::Way::{Hook as ByHook, Plan as ByPlan};
use ng_base::Errno;
use ng_filter_types::{blank_etf, blank_macset};
use std::test::Fail;

/// The cookie of an etf's messages.
const ETF: u32 = 0x4e47_000d;

/// The cookie of a macset's messages.
const MACSET: u32 = 0x4e47_000e;

/// The number of setfilter, and of add.
const SET: u32 = 1;

/// The number of del.
const DELETE: u32 = 2;

/// The number of getstatus.
const GET_STATUS: u32 = 0x2000_0002;

/// The number of getstats.
const GET_STATS: u32 = 0x2000_0004;

/// The number of gettable of both types.
const GET_TABLE: u32 = 0x3000_0003;

/// A frame of IP, of 15 bytes.
const IP: Field = Bytes(&[1, 2, 3, 4, 5, 6, 7, 8, 9, 10, 11, 12, 8, 0, 9]);

/// A frame of ARP.
const ARP: Field = Bytes(&[1, 2, 3, 4, 5, 6, 7, 8, 9, 10, 11, 12, 8, 6]);

/// A byte less than a frame.
const RUNT: Field = Bytes(&[1, 2, 3, 4, 5, 6, 7, 8, 9, 10, 11, 12, 8]);

/// A frame from 02:00:00:00:00:0a.
const FROM_10: Field = Bytes(&[1, 2, 3, 4, 5, 6, 2, 0, 0, 0, 0, 10, 8, 0]);

/// A frame from 02:00:00:00:00:0b.
const FROM_11: Field = Bytes(&[1, 2, 3, 4, 5, 6, 2, 0, 0, 0, 0, 11, 8, 0]);

const ETF_CASES: &[Case] = &[
    Case {
        shows: "a plan passes frames by `downstream` and by the filter's hook, and they are counted",
        steps: &[
            Hook(b"downstream"),
            Hook(b"ip"),
            Tell(SET, &[Name(b"ip"), U16(0x800)], Errno::NONE),
            Packet(ByPlan(b"downstream"), &[IP], Out(&[b"ip"])),
            Packet(ByPlan(b"ip"), &[ARP], Refused(Errno::PERM)),
            Packet(ByPlan(b"ip"), &[IP], Out(&[b"downstream"])),
            Packet(ByPlan(b"downstream"), &[ARP], Out(&[])),
            Packet(ByPlan(b"downstream"), &[RUNT], Refused(Errno::INVAL)),
            Packet(ByPlan(b"ip"), &[RUNT], Refused(Errno::INVAL)),
            Ask(GET_STATUS, &[], &[U64(&[3, 1])]),
        ],
    },
    Case {
        shows: "a frame of a filter goes out of its hook, and the filters are told",
        steps: &[
            Hook(b"downstream"),
            Hook(b"ip"),
            Tell(SET, &[Name(b"ip"), U16(0x800)], Errno::NONE),
            Packet(ByHook(b"downstream"), &[IP], Out(&[b"ip"])),
            Ask(GET_TABLE, &[], &[U32(1), Name(b"ip"), U16(0x800)]),
        ],
    },
    Case {
        shows: "filters are refused",
        steps: &[
            Hook(b"downstream"),
            Hook(b"ip"),
            Tell(SET, &[Name(b"ip"), U16(0x86dd)], Errno::NONE),
            Tell(SET, &[Name(b"ip"), U16(1_536)], Errno::NONE),
            Tell(SET, &[Name(b"ip"), U16(1_535)], Errno::INVAL),
            Tell(SET, &[Name(b"downstream"), U16(0x800)], Errno::INVAL),
            Tell(SET, &[Name(b"nomatch"), U16(0x800)], Errno::INVAL),
            Tell(SET, &[Name(b"absent"), U16(0x800)], Errno::NOENT),
            Tell(SET, &[Name(b"ip"), U16(0x86dd)], Errno::EXIST),
        ],
    },
];

#[test]
fn an_etf_sorts_frames(rt: HostRuntime) -> Result<(), Fail> {
    let alloc = rt.alloc();
    for case in ETF_CASES {
        try_case(&rt, alloc, ETF, blank_etf(alloc)?, case)?;
    }
    Ok(())
}

// One filter of `arp`, and behind it 4,095 of `ip`.
const FIRST: &[Step] = &[
    Hook(b"downstream"),
    Hook(b"ip"),
    Hook(b"arp"),
    Tell(SET, &[Name(b"arp"), U16(0x86dd)], Errno::NONE),
];

// 4,096 filters are all: until a hook goes with its filter, and then one more is taken.
const FULL: &[Step] = &[
    Tell(SET, &[Name(b"ip"), U16(0x8100)], Errno::NFILE),
    Tell(SET, &[Name(b"ip"), U16(1_536)], Errno::EXIST),
    Tell(SET, &[Name(b"ip"), U16(0x86dd)], Errno::EXIST),
    Tell(SET, &[Name(b"absent"), U16(0x8100)], Errno::NOENT),
    Tell(SET, &[Name(b"ip"), U16(1_535)], Errno::INVAL),
    Cut(b"arp"),
    Tell(SET, &[Name(b"ip"), U16(0x86dd)], Errno::NONE),
    Tell(SET, &[Name(b"ip"), U16(0x8100)], Errno::NFILE),
];

#[test]
fn a_full_table_takes_no_filter(rt: HostRuntime) -> Result<(), Fail> {
    let alloc = rt.alloc();
    let mut bench = Bench::new(alloc, ETF, blank_etf(alloc)?)?;
    assert_eq!(rt; bench.walk(alloc, FIRST)?, FIRST.len());
    for ethertype in 1_536..5_631u16 {
        let [low, high] = ethertype.to_le_bytes();
        let mut args = [0; 34];
        args[..2].copy_from_slice(b"ip");
        args[32..].copy_from_slice(&[low, high]);
        assert_eq!(rt; bench.tell(alloc, SET, &args)?.errno, Errno::NONE);
    }
    assert_eq!(rt; bench.walk(alloc, FULL)?, FULL.len());
    Ok(())
}

const MACSET_CASES: &[Case] = &[
    Case {
        shows: "a plan passes frames by each hook, and they are counted",
        steps: &[
            Hook(b"all"),
            Hook(b"known"),
            Hook(b"other"),
            Tell(SET, &[Bytes(&[2, 0, 0, 0, 0, 10])], Errno::NONE),
            Packet(ByPlan(b"all"), &[FROM_10], Out(&[b"known"])),
            Packet(ByPlan(b"all"), &[FROM_11], Out(&[b"other"])),
            Packet(ByPlan(b"all"), &[FROM_10], Out(&[b"known"])),
            Packet(ByPlan(b"known"), &[FROM_11], Out(&[b"all"])),
            Packet(ByPlan(b"other"), &[RUNT], Out(&[b"all"])),
            Packet(ByPlan(b"all"), &[RUNT], Refused(Errno::INVAL)),
            Ask(GET_STATS, &[], &[U64(&[2, 1])]),
        ],
    },
    Case {
        shows: "a known frame goes out of `known`",
        steps: &[
            Hook(b"all"),
            Hook(b"known"),
            Hook(b"other"),
            Tell(SET, &[Bytes(&[2, 0, 0, 0, 0, 10])], Errno::NONE),
            Packet(ByHook(b"all"), &[FROM_10], Out(&[b"known"])),
        ],
    },
    Case {
        shows: "add and del refuse addresses, and those that are left are told in order",
        steps: &[
            Tell(SET, &[Bytes(&[2, 0, 0, 0, 0, 11])], Errno::NONE),
            Tell(SET, &[Bytes(&[2, 0, 0, 0, 0, 10])], Errno::NONE),
            Tell(SET, &[Bytes(&[0, 255, 0, 0, 0, 0])], Errno::NONE),
            Tell(SET, &[Bytes(&[3, 0, 0, 0, 0, 12])], Errno::INVAL),
            Tell(SET, &[Bytes(&[2, 0, 0, 0, 0])], Errno::INVAL),
            Tell(SET, &[Bytes(&[2, 0, 0, 0, 0, 10])], Errno::EXIST),
            Tell(DELETE, &[Bytes(&[2, 0, 0, 0, 0, 10])], Errno::NONE),
            Tell(DELETE, &[Bytes(&[2, 0, 0, 0, 0, 10])], Errno::NOENT),
            Tell(DELETE, &[Bytes(&[2, 0, 0, 0, 0, 11, 0])], Errno::INVAL),
            Ask(
                GET_TABLE,
                &[],
                &[
                    U32(2),
                    Bytes(&[0, 255, 0, 0, 0, 0]),
                    Bytes(&[2, 0, 0, 0, 0, 11]),
                ],
            ),
        ],
    },
];

#[test]
fn a_macset_sorts_frames(rt: HostRuntime) -> Result<(), Fail> {
    let alloc = rt.alloc();
    for case in MACSET_CASES {
        try_case(&rt, alloc, MACSET, blank_macset(alloc)?, case)?;
    }
    Ok(())
}

// 4,096 addresses are all: until one is deleted, and then one more is taken.
const FULL_SET: &[Step] = &[
    Tell(SET, &[Bytes(&[2, 0, 0, 0, 16, 0])], Errno::NFILE),
    Tell(SET, &[Bytes(&[2, 0, 0, 0, 15, 255])], Errno::EXIST),
    Tell(SET, &[Bytes(&[2, 0, 0, 0, 0, 0])], Errno::EXIST),
    Tell(SET, &[Bytes(&[3, 0, 0, 0, 16, 0])], Errno::INVAL),
    Tell(DELETE, &[Bytes(&[2, 0, 0, 0, 16, 0])], Errno::NOENT),
    Tell(SET, &[Bytes(&[2, 0, 0, 0, 16, 0])], Errno::NFILE),
    Tell(DELETE, &[Bytes(&[2, 0, 0, 0, 0, 0])], Errno::NONE),
    Tell(SET, &[Bytes(&[2, 0, 0, 0, 16, 0])], Errno::NONE),
    Tell(SET, &[Bytes(&[2, 0, 0, 0, 0, 0])], Errno::NFILE),
];

#[test]
fn a_full_set_takes_no_address(rt: HostRuntime) -> Result<(), Fail> {
    let alloc = rt.alloc();
    let mut bench = Bench::new(alloc, MACSET, blank_macset(alloc)?)?;
    for number in 0..4_096u16 {
        let [high, low] = number.to_be_bytes();
        let told = bench.tell(alloc, SET, &[2, 0, 0, 0, high, low])?;
        assert_eq!(rt; told.errno, Errno::NONE);
    }
    assert_eq!(rt; bench.walk(alloc, FULL_SET)?, FULL_SET.len());
    Ok(())
}
