// Journals that are judged. The verdicts were worked out by the rules of which events are allowed where.
use crate::chosen::begin::{boxes, judged, ports};
use crate::chosen::inputs::{Given, inputs};
use ng_journal::read_journal;
use ng_replay::judge::Verdict;
use std::alloc::Global;
use std::test::Fail;

// What comes to the echo goes back to the socket.
const ECHO: &[Given] = &[
    Given::Line("mkpeer . echo a b"),
    Given::Line("write a 1 2 3"),
];

// A hub between two ports; three packets come, and a hook goes.
const TWO: &[Given] = &[
    Given::Line("mkpeer em0: hub lower l"),
    Given::Line("connect em0:lower em1: m lower"),
    Given::Packet(0, &[9]),
    Given::Packet(1, &[8]),
    Given::Packet(0, &[7]),
    Given::Line("rmhook em0:lower m"),
];

struct Example {
    name: &'static str,
    ports: usize,
    given: &'static [Given],
    limits: (u64, u32),
    journal: &'static str,
    verdict: Verdict,
}

const EXAMPLES: [Example; 31] = [
    Example {
        name: "whole",
        ports: 0,
        given: ECHO,
        limits: (1000, 1),
        journal: "F\nT 1 0\nA 1\nF\nT 2 0\nA 2\nT 3 0\nA 3\n",
        verdict: Verdict::Yes,
    },
    Example {
        name: "cut short",
        ports: 0,
        given: ECHO,
        limits: (1000, 1),
        journal: "F\nT 1 0\nA 1\nF\nT 2 0\nA 2\nT 3 0\n",
        verdict: Verdict::No { at: 8 },
    },
    Example {
        name: "two events swapped",
        ports: 0,
        given: ECHO,
        limits: (1000, 1),
        journal: "F\nT 1 0\nA 1\nF\nT 2 0\nT 3 0\nA 2\nA 3\n",
        verdict: Verdict::No { at: 6 },
    },
    Example {
        name: "two seats",
        ports: 0,
        given: ECHO,
        limits: (1000, 2),
        journal: "F\nT 1 1\nA 1\nF\nT 2 1\nA 2\nT 3 0\nA 3\n",
        verdict: Verdict::Yes,
    },
    Example {
        name: "no such seat",
        ports: 0,
        given: ECHO,
        limits: (1000, 2),
        journal: "F\nT 1 2\nA 1\n",
        verdict: Verdict::No { at: 2 },
    },
    Example {
        name: "no event",
        ports: 0,
        given: ECHO,
        limits: (1000, 1),
        journal: "",
        verdict: Verdict::No { at: 1 },
    },
    Example {
        name: "a take before anything is fed",
        ports: 0,
        given: ECHO,
        limits: (1000, 1),
        journal: "T 1 0\n",
        verdict: Verdict::No { at: 1 },
    },
    Example {
        name: "a feed before the last command is settled",
        ports: 0,
        given: ECHO,
        limits: (1000, 1),
        journal: "F\nF\nT 1 0\nA 1\n",
        verdict: Verdict::No { at: 2 },
    },
    Example {
        name: "a feed where no input is left",
        ports: 0,
        given: ECHO,
        limits: (1000, 1),
        journal: "F\nT 1 0\nA 1\nF\nT 2 0\nA 2\nT 3 0\nA 3\nF\n",
        verdict: Verdict::No { at: 9 },
    },
    Example {
        name: "put back, and taken again",
        ports: 0,
        given: ECHO,
        limits: (1000, 2),
        journal: "F\nT 1 0\nB 1\nT 1 1\nA 1\nF\nT 2 0\nA 2\nT 3 0\nB 3\nT 3 0\nA 3\n",
        verdict: Verdict::Yes,
    },
    Example {
        name: "a back of another item",
        ports: 0,
        given: ECHO,
        limits: (1000, 1),
        journal: "F\nT 1 0\nB 2\n",
        verdict: Verdict::No { at: 3 },
    },
    Example {
        name: "an apply of what is not taken",
        ports: 0,
        given: ECHO,
        limits: (1000, 1),
        journal: "F\nA 1\n",
        verdict: Verdict::No { at: 2 },
    },
    Example {
        name: "an apply of what was put back",
        ports: 0,
        given: ECHO,
        limits: (1000, 1),
        journal: "F\nT 1 0\nB 1\nA 1\n",
        verdict: Verdict::No { at: 4 },
    },
    Example {
        name: "an apply for the second time",
        ports: 0,
        given: ECHO,
        limits: (1000, 1),
        journal: "F\nT 1 0\nA 1\nA 1\n",
        verdict: Verdict::No { at: 4 },
    },
    Example {
        name: "a take by a seat that has the item",
        ports: 0,
        given: ECHO,
        limits: (1000, 2),
        journal: "F\nT 1 0\nA 1\nF\nT 2 0\nA 2\nT 3 0\nT 3 0\n",
        verdict: Verdict::No { at: 8 },
    },
    Example {
        name: "a stop at the limit",
        ports: 0,
        given: ECHO,
        limits: (2, 1),
        journal: "F\nT 1 0\nA 1\nF\nT 2 0\nA 2\nS\n",
        verdict: Verdict::Yes,
    },
    Example {
        name: "a stop where something is unfed",
        ports: 0,
        given: ECHO,
        limits: (1, 1),
        journal: "F\nT 1 0\nA 1\nS\n",
        verdict: Verdict::Yes,
    },
    Example {
        name: "no stop at the limit",
        ports: 0,
        given: ECHO,
        limits: (2, 1),
        journal: "F\nT 1 0\nA 1\nF\nT 2 0\nA 2\n",
        verdict: Verdict::No { at: 7 },
    },
    Example {
        name: "a stop before the limit",
        ports: 0,
        given: ECHO,
        limits: (3, 1),
        journal: "F\nT 1 0\nA 1\nF\nT 2 0\nA 2\nS\n",
        verdict: Verdict::No { at: 7 },
    },
    Example {
        name: "a stop where nothing is left",
        ports: 0,
        given: ECHO,
        limits: (3, 1),
        journal: "F\nT 1 0\nA 1\nF\nT 2 0\nA 2\nT 3 0\nA 3\nS\n",
        verdict: Verdict::No { at: 9 },
    },
    Example {
        name: "the limit is reached with the last item",
        ports: 0,
        given: ECHO,
        limits: (3, 1),
        journal: "F\nT 1 0\nA 1\nF\nT 2 0\nA 2\nT 3 0\nA 3\n",
        verdict: Verdict::Yes,
    },
    Example {
        name: "a stop after a stop",
        ports: 0,
        given: ECHO,
        limits: (2, 1),
        journal: "F\nT 1 0\nA 1\nF\nT 2 0\nA 2\nS\nS\n",
        verdict: Verdict::No { at: 8 },
    },
    Example {
        name: "a feed after a stop",
        ports: 0,
        given: ECHO,
        limits: (1, 1),
        journal: "F\nT 1 0\nA 1\nS\nF\n",
        verdict: Verdict::No { at: 5 },
    },
    Example {
        name: "a take at the limit",
        ports: 0,
        given: ECHO,
        limits: (2, 1),
        journal: "F\nT 1 0\nA 1\nF\nT 2 0\nA 2\nT 3 0\n",
        verdict: Verdict::No { at: 7 },
    },
    Example {
        name: "a feed at the limit",
        ports: 0,
        given: ECHO,
        limits: (1, 1),
        journal: "F\nT 1 0\nA 1\nF\n",
        verdict: Verdict::No { at: 4 },
    },
    Example {
        name: "a take of an item that is not the least",
        ports: 2,
        given: TWO,
        limits: (1000, 2),
        journal: "F\nT 1 0\nA 1\nF\nT 2 0\nA 2\nT 3 0\nA 3\nT 4 0\nA 4\nF\nF\nF\nT 6 0\n",
        verdict: Verdict::No { at: 14 },
    },
    Example {
        name: "a take past a writer",
        ports: 2,
        given: TWO,
        limits: (1000, 2),
        journal: "F\nT 1 0\nA 1\nF\nT 2 0\nA 2\nT 3 0\nA 3\nT 4 0\nA 4\nF\nT 5 0\nA 5\nT 6 0\nF\nF\nF\nT 7 1\nA 7\nT 8 1\nA 8\nT 10 1\n",
        verdict: Verdict::No { at: 22 },
    },
    Example {
        name: "a writer beside a reader",
        ports: 2,
        given: TWO,
        limits: (1000, 2),
        journal: "F\nT 1 0\nA 1\nF\nT 2 0\nA 2\nT 3 0\nA 3\nT 4 0\nA 4\nF\nT 5 0\nA 5\nT 6 0\nF\nF\nF\nT 7 1\nA 7\nT 8 1\nA 8\nT 9 1\n",
        verdict: Verdict::No { at: 22 },
    },
    Example {
        name: "a take beside another lane, cut short",
        ports: 2,
        given: TWO,
        limits: (1000, 2),
        journal: "F\nT 1 0\nA 1\nF\nT 2 0\nA 2\nT 3 0\nA 3\nT 4 0\nA 4\nF\nT 5 0\nA 5\nT 6 0\nF\nF\nT 7 1\nA 7\nT 8 1\nA 8\nT 9 1\nA 9\nA 6\nT 10 0\nA 10\n",
        verdict: Verdict::No { at: 26 },
    },
    Example {
        name: "a take beside its own lane",
        ports: 2,
        given: TWO,
        limits: (1000, 2),
        journal: "F\nT 1 0\nA 1\nF\nT 2 0\nA 2\nT 3 0\nA 3\nT 4 0\nA 4\nF\nT 5 0\nA 5\nT 6 0\nF\nF\nT 7 1\nA 7\nT 8 1\nA 8\nT 9 1\nA 9\nT 10 1\n",
        verdict: Verdict::No { at: 23 },
    },
    Example {
        name: "two ports, whole",
        ports: 2,
        given: TWO,
        limits: (1000, 2),
        journal: "F\nT 1 0\nA 1\nF\nT 2 0\nA 2\nT 3 0\nA 3\nT 4 0\nA 4\nF\nT 5 0\nA 5\nT 6 0\nF\nF\nF\nT 7 1\nA 7\nT 8 1\nA 8\nA 6\nT 9 1\nA 9\nT 10 0\nA 10\nT 11 1\nA 11\nT 12 0\nA 12\nT 13 0\nA 13\n",
        verdict: Verdict::Yes,
    },
];

// A journal's file, by its lines behind the head.
fn file_of(alloc: Global, lines: &str) -> Result<Vec<u8>, Fail> {
    let mut bytes = Vec::new(alloc);
    bytes.extend_from_slice(b"ngjournal 1\n")?;
    bytes.extend_from_slice(lines.as_bytes())?;
    Ok(bytes)
}

#[test]
fn journals_are_judged(rt: HostRuntime) -> Result<(), Fail> {
    let alloc = rt.alloc();
    for example in &EXAMPLES {
        let journal = read_journal(alloc, &file_of(alloc, example.journal)?)?;
        let (budget, seats) = example.limits;
        if budget > 1000 || seats == 0 {
            return Err(Fail::new("limits that no example has"));
        }
        let verdict = judged(
            alloc,
            ports(alloc, example.ports)?,
            boxes(alloc)?,
            (budget, seats),
            inputs(alloc, example.given)?,
            &journal,
        )?;
        assert_eq!(rt; verdict, example.verdict, "{}", example.name);
    }
    Ok(())
}
