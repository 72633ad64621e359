// Runs by moves, as they were worked out by hand.
use crate::chosen::begin::{boxes, play, ports};
use crate::chosen::inputs::{Given, inputs};
use ng_base::NoMemory;
use ng_machine::Totals;
use ng_workers::pool::Move;
use std::test::Fail;

const FEED: Move = Move::Feed;

const TAKE_0: Move = Move::Take { seat: 0 };

const TAKE_1: Move = Move::Take { seat: 1 };

const TAKE_2: Move = Move::Take { seat: 2 };

const APPLY_0: Move = Move::Apply { seat: 0 };

const APPLY_1: Move = Move::Apply { seat: 1 };

const APPLY_2: Move = Move::Apply { seat: 2 };

const HALF_JOINED: &[Given] = &[
    Given::Line("mkpeer em0: hub lower l"),
    Given::Line("mkpeer . hub s h"),
    Given::Line("connect s em0:lower x y"),
    Given::Packet(0, &[9]),
];

const CUT: &[Given] = &[
    Given::Line("mkpeer em0: hub lower l"),
    Given::Line("mkpeer em0:lower hub x y"),
    Given::Line("mkpeer em0:lower.x hole k k"),
    Given::Packet(0, &[9]),
    Given::Line("rmhook em0:lower.x y"),
    Given::Line("mkpeer em0:lower.x hole y h"),
];

const GOES: &[Given] = &[
    Given::Line("mkpeer em0: hub lower l"),
    Given::Packet(0, &[9]),
    Given::Packet(0, &[9]),
    Given::Packet(0, &[9]),
    Given::Packet(0, &[9]),
    Given::Packet(0, &[9]),
    Given::Packet(0, &[9]),
    Given::Line("shutdown em0:lower"),
];

const COMES_LATE: &[Given] = &[
    Given::Line("mkpeer . hub a x"),
    Given::Line("mkpeer a hub p q"),
    Given::Line("name a.p nb"),
    Given::Line("mkpeer . hub d y"),
    Given::Line("shutdown a"),
    Given::Line("connect d nb: u v"),
];

const ROUND: &[Given] = &[
    Given::Line("mkpeer . hub a x"),
    Given::Line("connect a . p q"),
    Given::Line("write a 1"),
    Given::Line("shutdown a"),
];

const LEARNS: &[Given] = &[
    Given::Line("mkpeer em0: bridge lower link0"),
    Given::Line("connect em0:lower em1: link1 lower"),
    Given::Packet(0, &[2, 0, 0, 0, 0, 11, 2, 0, 0, 0, 0, 10, 8, 0]),
    Given::Packet(1, &[2, 0, 0, 0, 0, 10, 2, 0, 0, 0, 0, 11, 8, 0]),
];

const FORGETS: &[Given] = &[
    Given::Line("mkpeer em0: bridge lower link0"),
    Given::Line("connect em0:lower em1: link1 lower"),
    Given::Packet(0, &[2, 0, 0, 0, 0, 11, 2, 0, 0, 0, 0, 10, 8, 0]),
    Given::Line("rmhook em0:lower link0"),
];

/// The inputs of four of the examples, each with its number of ports.
pub(super) const GIVEN: [(usize, &[Given]); 4] = [(0, ROUND), (1, CUT), (1, GOES), (0, COMES_LATE)];

struct Example {
    name: &'static str,
    ports: usize,
    seats: u32,
    given: &'static [Given],
    moves: &'static [Move],
    skipped: &'static [u32],
    totals: Totals,
}

const EXAMPLES: [Example; 7] = [
    Example {
        name: "a packet runs up to a hook that is not joined yet",
        ports: 1,
        seats: 2,
        given: HALF_JOINED,
        moves: &[
            FEED, TAKE_0, APPLY_0, FEED, TAKE_0, APPLY_0, FEED, TAKE_0, APPLY_0, TAKE_0, APPLY_0,
            FEED, TAKE_0, TAKE_1, APPLY_1, TAKE_1, APPLY_1, TAKE_1, APPLY_0, TAKE_0, APPLY_0,
            TAKE_0, APPLY_0,
        ],
        skipped: &[17],
        totals: Totals {
            applied: 9,
            refused: 0,
            node_gone: 0,
            hook_gone: 0,
            budget: 0,
            no_peer: 0,
            peer_gone: 0,
            full: 0,
            spool: 0,
            nodes: 4,
            hooks: 6,
        },
    },
    Example {
        name: "a link is cut under a packet",
        ports: 1,
        seats: 2,
        given: CUT,
        moves: &[
            FEED, TAKE_0, APPLY_0, FEED, TAKE_0, APPLY_0, FEED, TAKE_0, APPLY_0, FEED, TAKE_0,
            APPLY_0, TAKE_0, FEED, TAKE_1, APPLY_1, FEED, TAKE_1, APPLY_1, APPLY_0, TAKE_0, TAKE_1,
            APPLY_1, APPLY_0,
        ],
        skipped: &[],
        totals: Totals {
            applied: 8,
            refused: 0,
            node_gone: 0,
            hook_gone: 1,
            budget: 0,
            no_peer: 0,
            peer_gone: 0,
            full: 0,
            spool: 0,
            nodes: 6,
            hooks: 6,
        },
    },
    Example {
        name: "a node goes with what waits for it",
        ports: 1,
        seats: 2,
        given: GOES,
        moves: &[
            FEED, TAKE_0, APPLY_0, FEED, FEED, FEED, FEED, FEED, FEED, FEED, TAKE_0, TAKE_1,
            APPLY_0, TAKE_0, APPLY_0, TAKE_0, APPLY_0, TAKE_0, APPLY_0, TAKE_0, APPLY_0, APPLY_1,
            TAKE_0, APPLY_0, TAKE_0, APPLY_0,
        ],
        skipped: &[],
        totals: Totals {
            applied: 9,
            refused: 0,
            node_gone: 5,
            hook_gone: 0,
            budget: 0,
            no_peer: 0,
            peer_gone: 1,
            full: 0,
            spool: 0,
            nodes: 2,
            hooks: 0,
        },
    },
    Example {
        name: "a connect comes to a node that goes",
        ports: 0,
        seats: 3,
        given: COMES_LATE,
        moves: &[
            FEED, TAKE_0, APPLY_0, FEED, TAKE_0, APPLY_0, FEED, TAKE_0, APPLY_0, FEED, TAKE_0,
            APPLY_0, FEED, TAKE_0, APPLY_0, TAKE_0, TAKE_1, FEED, TAKE_2, APPLY_2, APPLY_1, TAKE_1,
            APPLY_1, APPLY_0,
        ],
        skipped: &[],
        totals: Totals {
            applied: 9,
            refused: 0,
            node_gone: 1,
            hook_gone: 0,
            budget: 0,
            no_peer: 0,
            peer_gone: 0,
            full: 0,
            spool: 0,
            nodes: 2,
            hooks: 2,
        },
    },
    Example {
        name: "two seats go round",
        ports: 0,
        seats: 2,
        given: ROUND,
        moves: &[
            FEED, TAKE_0, APPLY_0, FEED, TAKE_0, APPLY_0, TAKE_0, APPLY_0, TAKE_0, APPLY_0, FEED,
            TAKE_0, APPLY_0, FEED, TAKE_0, TAKE_1, APPLY_0, APPLY_1, TAKE_0, APPLY_0, TAKE_0,
            APPLY_0, TAKE_0, APPLY_0, TAKE_0, APPLY_0,
        ],
        skipped: &[],
        totals: Totals {
            applied: 11,
            refused: 0,
            node_gone: 2,
            hook_gone: 0,
            budget: 0,
            no_peer: 0,
            peer_gone: 0,
            full: 0,
            spool: 0,
            nodes: 1,
            hooks: 0,
        },
    },
    Example {
        name: "a bridge learns two hosts side by side",
        ports: 2,
        seats: 2,
        given: LEARNS,
        moves: &[
            FEED, TAKE_0, APPLY_0, FEED, TAKE_0, APPLY_0, TAKE_0, APPLY_0, TAKE_0, APPLY_0, FEED,
            FEED, TAKE_0, APPLY_0, TAKE_0, APPLY_0, TAKE_0, TAKE_1, APPLY_1, APPLY_0, TAKE_0,
            APPLY_0, TAKE_0, APPLY_0, TAKE_0, APPLY_0, TAKE_0, APPLY_0,
        ],
        skipped: &[],
        totals: Totals {
            applied: 12,
            refused: 0,
            node_gone: 0,
            hook_gone: 0,
            budget: 0,
            no_peer: 0,
            peer_gone: 0,
            full: 0,
            spool: 0,
            nodes: 4,
            hooks: 4,
        },
    },
    Example {
        name: "a host is learned and forgotten with its link",
        ports: 2,
        seats: 1,
        given: FORGETS,
        moves: &[
            FEED, TAKE_0, APPLY_0, FEED, TAKE_0, APPLY_0, TAKE_0, APPLY_0, TAKE_0, APPLY_0, FEED,
            TAKE_0, APPLY_0, TAKE_0, APPLY_0, FEED, TAKE_0, APPLY_0, TAKE_0, APPLY_0, TAKE_0,
            APPLY_0, TAKE_0, APPLY_0,
        ],
        skipped: &[],
        totals: Totals {
            applied: 10,
            refused: 0,
            node_gone: 0,
            hook_gone: 0,
            budget: 0,
            no_peer: 0,
            peer_gone: 0,
            full: 0,
            spool: 0,
            nodes: 4,
            hooks: 2,
        },
    },
];

#[test]
fn moves_are_made_as_they_were_chosen(rt: HostRuntime) -> Result<(), Fail> {
    let alloc = rt.alloc();
    for example in &EXAMPLES {
        if example.seats == 0 {
            return Err(NoMemory)?;
        }
        let given = inputs(alloc, example.given)?;
        let run = play(
            alloc,
            ports(alloc, example.ports)?,
            boxes(alloc)?,
            example.seats,
            given,
            example.moves,
        )?;
        assert_eq!(rt; run.skipped.as_slice(), example.skipped, "{}", example.name);
        assert_eq!(rt; run.totals, example.totals, "{}", example.name);
    }
    Ok(())
}
