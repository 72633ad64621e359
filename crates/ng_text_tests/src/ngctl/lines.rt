// The parts of a text, as tables, and what a sink holds of one that is slow, fails or has little room.
use crate::ngctl::same::holds;
use ng_base::{Errno, Name, NoMemory};
use ng_machine::{PortTotals, Totals};
use ng_outside::MemSink;
use ngctl_print::{PrintStop, print_frame, print_port, print_refused, print_summary};
use std::alloc::Global;
use std::test::Fail;

const NOTHING: Totals = Totals {
    applied: 0,
    refused: 0,
    node_gone: 0,
    hook_gone: 0,
    budget: 0,
    no_peer: 0,
    peer_gone: 0,
    full: 0,
    spool: 0,
    nodes: 0,
    hooks: 0,
};

// The summary of an echo.
const ECHO_TOTALS: Totals = Totals {
    applied: 3,
    nodes: 2,
    hooks: 2,
    ..NOTHING
};

const ECHO_SUMMARY: &str = "summary: fed 2 of 2, applied 3, data refused 0
dropped: node gone 0, hook gone 0, budget 0
lost: no peer 0, node gone 0, full 0, spool 0
graph: nodes 2, hooks 2
";

// A sink whose call of the number `failing` fails (0: none).
fn sink_of(alloc: Global, room: usize, slow: bool, failing: u64) -> Result<MemSink, NoMemory> {
    let failing = [failing].to_vec(alloc)?;
    MemSink::new(alloc, room, slow, failing)
}

// Each count of a summary is another.
const ALL_TOTALS: Totals = Totals {
    applied: 100,
    refused: 18_446_744_073_709_551_615,
    node_gone: 3,
    hook_gone: 4,
    budget: 5,
    no_peer: 6,
    peer_gone: 7,
    full: 8,
    spool: 9,
    nodes: 10,
    hooks: 4_100,
};

const ALL_SUMMARY: &str =
    "summary: fed 12 of 13, applied 100, data refused 18446744073709551615, stopped
dropped: node gone 3, hook gone 4, budget 5
lost: no peer 6, node gone 7, full 8, spool 9
graph: nodes 10, hooks 4100
";

// The bytes of the packets below, and their lines as hexdump(1) writes them.
const BYTES: [u8; 33] = [
    0x9a, 0xbf, 0xe4, 0x09, 0x2e, 0x53, 0x78, 0x9d, 0xc2, 0xe7, 0x0c, 0x31, 0x56, 0x7b, 0xa0, 0xc5,
    0xea, 0x0f, 0x34, 0x59, 0x7e, 0xa3, 0xc8, 0xed, 0x12, 0x37, 0x5c, 0x81, 0xa6, 0xcb, 0xf0, 0x15,
    0x3a,
];

// What is printed.
#[derive(Clone, Copy)]
enum Part {
    // The summary of so many inputs that were fed, of so many, and whether the run was stopped.
    Summary(Totals, u64, u64, bool),
    // The line of the port em0, whose capture may be cut.
    Port(PortTotals, Option<u64>),
    // The line of a refused command.
    Refused(Errno, &'static str),
    // The dump of so many of the bytes, which come by hook-1.
    Dump(usize),
}

// Prints a part: how it ends.
fn print(alloc: Global, part: &Part, sink: &mut MemSink) -> Result<Result<(), PrintStop>, Fail> {
    match part {
        Part::Summary(totals, fed, of, stopped) => {
            Ok(print_summary(alloc, totals, *fed, *of, *stopped, sink))
        }
        Part::Port(totals, cut) => Ok(print_port(alloc, &Name::read(b"em0")?, totals, *cut, sink)),
        Part::Refused(errno, why) => Ok(print_refused(alloc, *errno, why.as_bytes(), sink)),
        Part::Dump(len) => {
            let packet = BYTES.get(..*len).unwrap_or(&[]);
            Ok(print_frame(alloc, &Name::read(b"hook-1")?, packet, sink))
        }
    }
}

// A sink, and what has to come of a part that is printed to it.
struct Row {
    part: Part,
    // What the sink has room for, whether it takes a byte at a time, and the call that fails (0: none).
    room: usize,
    slow: bool,
    failing: u64,
    end: Result<(), PrintStop>,
    text: &'static str,
    // How many calls there were, where that is of interest.
    calls: Option<u64>,
}

// A sink with room, which doesn't fail.
const ROOMY: Row = Row {
    part: Part::Dump(0),
    room: 1_000,
    slow: false,
    failing: 0,
    end: Ok(()),
    text: "",
    calls: None,
};

const ROWS: &[Row] = &[
    // A summary is put line by line.
    Row {
        part: Part::Summary(ECHO_TOTALS, 2, 2, false),
        text: ECHO_SUMMARY,
        calls: Some(4),
        ..ROOMY
    },
    Row {
        part: Part::Summary(ECHO_TOTALS, 2, 2, false),
        slow: true,
        text: ECHO_SUMMARY,
        calls: Some(ECHO_SUMMARY.len() as u64),
        ..ROOMY
    },
    Row {
        part: Part::Summary(ECHO_TOTALS, 2, 2, false),
        failing: 1,
        end: Err(PrintStop::Fault),
        calls: Some(1),
        ..ROOMY
    },
    Row {
        part: Part::Summary(ECHO_TOTALS, 2, 2, false),
        failing: 2,
        end: Err(PrintStop::Fault),
        text: "summary: fed 2 of 2, applied 3, data refused 0\n",
        calls: Some(2),
        ..ROOMY
    },
    // A full sink holds a prefix.
    Row {
        part: Part::Summary(ECHO_TOTALS, 2, 2, false),
        room: 52,
        end: Err(PrintStop::Fault),
        text: "summary: fed 2 of 2, applied 3, data refused 0\ndropp",
        ..ROOMY
    },
    // Each count has its place.
    Row {
        part: Part::Summary(ALL_TOTALS, 12, 13, true),
        text: ALL_SUMMARY,
        ..ROOMY
    },
    // A port has a line.
    Row {
        part: Part::Port(
            PortTotals {
                fed: 3,
                left: 4,
                up: 5,
            },
            None,
        ),
        room: 100,
        text: "port em0: in 3, left 4, up 5\n",
        ..ROOMY
    },
    Row {
        part: Part::Port(
            PortTotals {
                fed: 1,
                left: 0,
                up: 0,
            },
            Some(54),
        ),
        room: 100,
        text: "port em0: in 1, left 0, up 0, capture cut at byte 54\n",
        ..ROOMY
    },
    // A refused command is told with its error.
    Row {
        part: Part::Refused(Errno::EXIST, ""),
        text: "error 17: File exists\n",
        calls: Some(1),
        ..ROOMY
    },
    Row {
        part: Part::Refused(Errno::INVAL, "bad path"),
        text: "error 22: Invalid argument (bad path)\n",
        calls: Some(1),
        ..ROOMY
    },
    // A dump has a line for sixteen bytes.
    Row {
        part: Part::Dump(0),
        text: "data on hook-1:\n",
        ..ROOMY
    },
    Row {
        part: Part::Dump(1),
        text: "data on hook-1:\n00000: 9a\n",
        ..ROOMY
    },
    Row {
        part: Part::Dump(16),
        text: "data on hook-1:\n00000: 9a bf e4 09 2e 53 78 9d c2 e7 0c 31 56 7b a0 c5\n",
        ..ROOMY
    },
    Row {
        part: Part::Dump(17),
        text: "data on hook-1:\n00000: 9a bf e4 09 2e 53 78 9d c2 e7 0c 31 56 7b a0 c5\n00010: ea\n",
        ..ROOMY
    },
    Row {
        part: Part::Dump(33),
        text: "data on hook-1:\n00000: 9a bf e4 09 2e 53 78 9d c2 e7 0c 31 56 7b a0 c5\n00010: ea 0f 34 59 7e a3 c8 ed 12 37 5c 81 a6 cb f0 15\n00020: 3a\n",
        ..ROOMY
    },
];

// Whether a row comes out so.
fn comes_out(alloc: Global, row: &Row) -> Result<bool, Fail> {
    let mut sink = sink_of(alloc, row.room, row.slow, row.failing)?;
    let end = print(alloc, &row.part, &mut sink)?;
    let calls = sink.calls();
    Ok(
        end == row.end
            && sink.bytes() == row.text.as_bytes()
            && row.calls.is_none_or(|wanted| wanted == calls),
    )
}

#[test]
fn parts_are_printed(rt: HostRuntime) -> Result<(), Fail> {
    for row in ROWS {
        holds(&rt, comes_out(rt.alloc(), row)?, row.text);
    }
    Ok(())
}

#[test]
fn offsets_have_five_digits(rt: HostRuntime) -> Result<(), Fail> {
    let bytes = vec![in rt.alloc(); 0x5a; 65_552]?;
    let mut sink = sink_of(rt.alloc(), 300_000, false, 0)?;
    print_frame(rt.alloc(), &Name::read(b"a")?, bytes.as_slice(), &mut sink)?;
    let text = str::from_utf8(sink.bytes())?;
    // A line of sixteen bytes has 55 bytes.
    assert_eq!(rt; text.len(), 11 + 4_097 * 55);
    assert!(rt;
        text.ends_with(
            "\n0fff0: 5a 5a 5a 5a 5a 5a 5a 5a 5a 5a 5a 5a 5a 5a 5a 5a\n10000: 5a 5a 5a 5a 5a 5a 5a 5a 5a 5a 5a 5a 5a 5a 5a 5a\n"
        )
    );
    Ok(())
}
