// What stands after an output that fails, and in a journal that has no room.
use crate::fakes::{Held, ROOM, file, files_of, holds, sink, words_in};
use ng_call::{Fault, Which, fault_line};
use ng_outside::{MemSink, OpenGate};
use ng_run::ngrun;
use ng_stock::{stock, stock_suffices};
use std::alloc::Global;
use std::process::Abort;
use std::sync::Wait;
use std::test::Fail;
use std::thread::Threads;

const ECHO: Held = Held {
    name: "script",
    bytes: b"mkpeer . echo a b\nwrite a 1 2 3\n",
};

const ECHO_TEXT: &str = "+ mkpeer . echo a b
+ write a 1 2 3
data on a:
00000: 01 02 03
summary: fed 2 of 2, applied 3, data refused 0
dropped: node gone 0, hook gone 0, budget 0
lost: no peer 0, node gone 0, full 0, spool 0
graph: nodes 2, hooks 2
";

// Two inputs are fed, and three items are taken and applied.
const ECHO_EVENTS: usize = 2 + 3 + 3;

// A run that fails, and what stands after it.
struct Example {
    words: &'static str,
    files: &'static [Held<'static>],
    room: usize,
    // Whether the output takes a byte of the text at a time.
    is_slow: bool,
    // The put of the text that fails, from 1; 0 for none.
    failing: u64,
    fault: Fault,
    text: &'static str,
    told: &'static str,
    left: &'static [Held<'static>],
}

const EXAMPLES: [Example; 3] = [
    Example {
        words: "-j journal script em0=,out0",
        files: &[
            ECHO,
            Held {
                name: "out0",
                bytes: b"before",
            },
            Held {
                name: "journal",
                bytes: b"before",
            },
        ],
        room: ROOM,
        is_slow: false,
        failing: 1,
        fault: Fault::WriteFault(Which::Sink),
        text: "",
        told: "ngrun: can't write output\n",
        left: &[
            ECHO,
            Held {
                name: "out0",
                bytes: b"before",
            },
            Held {
                name: "journal",
                bytes: b"before",
            },
        ],
    },
    // The first line is taken, a byte at a time.
    Example {
        words: "script",
        files: &[ECHO],
        room: ROOM,
        is_slow: true,
        failing: 21,
        fault: Fault::WriteFault(Which::Sink),
        text: "+ mkpeer . echo a b\n",
        told: "ngrun: can't write output\n",
        left: &[ECHO],
    },
    // One byte of the journal is taken.
    Example {
        words: "-j journal script",
        files: &[
            ECHO,
            Held {
                name: "journal",
                bytes: b"",
            },
        ],
        room: 1,
        is_slow: false,
        failing: 0,
        fault: Fault::WriteFault(Which::Journal),
        text: ECHO_TEXT,
        told: "ngrun: can't write journal\n",
        left: &[Held {
            name: "journal",
            bytes: b"n",
        }],
    },
];

fn check(
    rt: &(impl Abort + Threads + Wait + Sync),
    alloc: Global,
    example: &Example,
) -> Result<(), Fail> {
    let words = words_in(alloc, example.words)?;
    let mut files = files_of(alloc, example.files, example.room, false, 0)?;
    let mut out = sink(alloc, example.is_slow, example.failing)?;
    let boxes = stock(alloc)?;
    stock_suffices();
    let ended = ngrun(rt, alloc, &words, &mut files, &mut out, boxes, &OpenGate);
    assert_eq!(rt; ended.fault, Some(example.fault), "{}", example.told);
    assert_eq!(rt; ended.status, 74, "{}", example.told);
    assert_eq!(rt; ended.journal.len(), ECHO_EVENTS, "{}", example.told);
    assert_eq!(rt; str::from_utf8(out.bytes())?, example.text);
    let mut line = Vec::new(alloc);
    fault_line(alloc, &example.fault, &words, &mut line)?;
    assert_eq!(rt; str::from_utf8(&line)?, example.told);
    for file in example.left {
        assert!(rt; holds(&files, file), "{}: {}", file.name, example.told);
    }
    Ok(())
}

#[test]
fn what_was_written_before_a_fault_stands(rt: HostRuntime) -> Result<(), Fail> {
    for example in &EXAMPLES {
        check(&rt, rt.alloc(), example)?;
    }
    Ok(())
}

#[test]
fn a_want_of_memory_is_told(rt: HostRuntime) -> Result<(), Fail> {
    let mut line = Vec::new(rt.alloc());
    fault_line(rt.alloc(), &Fault::NoMemory, &[], &mut line)?;
    assert_eq!(rt; str::from_utf8(&line)?, "ngrun: out of memory\n");
    Ok(())
}

// The help of a command 400 times: each prints some 300 bytes.
fn long_script(alloc: Global) -> Result<Vec<u8>, Fail> {
    let mut script = Vec::new(alloc);
    for _ in 0..400 {
        script.extend_from_slice(b"help\n")?;
    }
    Ok(script)
}

#[test]
fn a_long_text_is_put_in_pieces_of_whole_entries(rt: HostRuntime) -> Result<(), Fail> {
    let alloc = rt.alloc();
    let script = long_script(alloc)?;
    let words = words_in(alloc, "script")?;
    let mut files = files_of(alloc, &[file("script", &script)], ROOM, false, 0)?;
    let mut out = MemSink::new(alloc, 1 << 17, false, [2].to_vec(alloc)?)?;
    let boxes = stock(alloc)?;
    stock_suffices();
    let ended = ngrun(&rt, alloc, &words, &mut files, &mut out, boxes, &OpenGate);
    assert_eq!(rt; ended.fault, Some(Fault::WriteFault(Which::Sink)));
    // The first piece is whole, and ends with the line that filled it.
    assert!(rt; out.bytes().len() >= 65_536 && out.bytes().len() < 66_000);
    assert!(rt; out.bytes().ends_with(b"\n"));
    Ok(())
}
