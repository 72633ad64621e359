// Each call of the files and of the output that fails, one at a time, in a run of two ports with a journal: without workers
// and with two, and by files and an output that take and give as much as fits, or a byte at a time.
ghost use Rattle.std.specs.Prelude.{◌<◌};

use crate::fakes::{Held, ROOM, file, files_of, holds, sink, words_in};
use ng_base::Event;
use ng_call::{Ended, Fault, Which};
use ng_journal::kept::Journal;
use ng_outside::{MemFiles, MemSink, OpenGate};
use ng_run::ngrun;
use ng_stock::{stock, stock_suffices};
use std::alloc::{AllocError, Global};
use std::process::Abort;
use std::sync::Wait;
use std::test::Fail;
use std::thread::Threads;

const BEFORE: &[u8] = b"before";

// More calls than such a run makes.
const MANY: u64 = 3000;

// One way to make the run: its words and its script, the text and how many events the journal has, and whether files and
// output are slow.
#[derive(Drop)]
struct Way {
    words: &'static str,
    script: &'static str,
    text: &'static str,
    events: usize,
    is_slow: bool,
}

const ALONE: &str = "-j journal script em0=in0,out0 em1=in1,out1";

const BY_TWO: &str = "-w 2 -j journal script em0=in0,out0 em1=in1,out1";

// The tee goes after two packets.
const TEED: &str = "mkpeer em0: tee lower left
name em0:lower t
connect t: em1: right lower
@2
shutdown t:
@end
list
";

const TEED_TEXT: &str = "+ mkpeer em0: tee lower left
+ name em0:lower t
+ connect t: em1: right lower
+ shutdown t:
+ list
There are 3 total nodes:
  Name: ngctl           Type: socket          ID: 00000001   Num hooks: 0
  Name: em0             Type: ether           ID: 00000002   Num hooks: 1
  Name: em1             Type: ether           ID: 00000003   Num hooks: 1
summary: fed 9 of 9, applied 20, data refused 0
dropped: node gone 0, hook gone 0, budget 0
lost: no peer 0, node gone 0, full 0, spool 0
graph: nodes 3, hooks 2
port em0: in 2, left 2, up 0
port em1: in 2, left 2, up 0
";

// Every journal of this script gives the same text: the last command in front of the mark is fed when the hooks are joined, the
// packets come behind it, and the tee goes when nothing is pending anymore.
const TEED_TO_THE_END: &str = "mkpeer em0: tee lower left
connect em0:lower em1: right lower
name em0:lower t
@end
shutdown t:
list
";

const TEED_TO_THE_END_TEXT: &str = "+ mkpeer em0: tee lower left
+ connect em0:lower em1: right lower
+ name em0:lower t
+ shutdown t:
+ list
There are 3 total nodes:
  Name: ngctl           Type: socket          ID: 00000001   Num hooks: 0
  Name: em0             Type: ether           ID: 00000002   Num hooks: 1
  Name: em1             Type: ether           ID: 00000003   Num hooks: 1
summary: fed 9 of 9, applied 22, data refused 0
dropped: node gone 0, hook gone 0, budget 0
lost: no peer 0, node gone 0, full 0, spool 0
graph: nodes 3, hooks 2
port em0: in 2, left 2, up 0
port em1: in 2, left 2, up 0
";

// Inputs that are fed, and items that are applied, each behind a take.
const TEED_EVENTS: usize = 9 + 20 + 20;

const TEED_TO_THE_END_EVENTS: usize = 9 + 22 + 22;

const WAYS: [Way; 4] = [
    Way {
        words: ALONE,
        script: TEED,
        text: TEED_TEXT,
        events: TEED_EVENTS,
        is_slow: false,
    },
    Way {
        words: ALONE,
        script: TEED,
        text: TEED_TEXT,
        events: TEED_EVENTS,
        is_slow: true,
    },
    Way {
        words: BY_TWO,
        script: TEED_TO_THE_END,
        text: TEED_TO_THE_END_TEXT,
        events: TEED_TO_THE_END_EVENTS,
        is_slow: false,
    },
    Way {
        words: BY_TWO,
        script: TEED_TO_THE_END,
        text: TEED_TO_THE_END_TEXT,
        events: TEED_TO_THE_END_EVENTS,
        is_slow: true,
    },
];

// What the first port gets, and so what leaves by the other. Two frames of the host whose address ends with 0a go to those
// with 0b and 0c, 200 milliseconds apart.
const IN0: [u8; 84] = [
    0x4d, 0x3c, 0xb2, 0xa1, 2, 0, 4, 0, 0, 0, 0, 0, 0, 0, 0, 0, 0, 0, 4, 0, 1, 0, 0, 0, 1, 0, 0, 0,
    0, 0xe1, 0xf5, 5, 0x0e, 0, 0, 0, 0x0e, 0, 0, 0, 2, 0, 0, 0, 0, 0x0b, 2, 0, 0, 0, 0, 0x0a, 8, 0,
    1, 0, 0, 0, 0, 0xa3, 0xe1, 0x11, 0x0e, 0, 0, 0, 0x0e, 0, 0, 0, 2, 0, 0, 0, 0, 0x0c, 2, 0, 0, 0,
    0, 0x0a, 8, 0,
];

// What the second port gets: a frame of each of those two to the first, 100 milliseconds after its own.
const IN1: [u8; 84] = [
    0x4d, 0x3c, 0xb2, 0xa1, 2, 0, 4, 0, 0, 0, 0, 0, 0, 0, 0, 0, 0, 0, 4, 0, 1, 0, 0, 0, 1, 0, 0, 0,
    0, 0xc2, 0xeb, 0x0b, 0x0e, 0, 0, 0, 0x0e, 0, 0, 0, 2, 0, 0, 0, 0, 0x0a, 2, 0, 0, 0, 0, 0x0b, 8,
    0, 1, 0, 0, 0, 0, 0x84, 0xd7, 0x17, 0x0e, 0, 0, 0, 0x0e, 0, 0, 0, 2, 0, 0, 0, 0, 0x0a, 2, 0, 0,
    0, 0, 0x0c, 8, 0,
];

// The run with the call of the files and the put of this number failing.
#[derive(Drop)]
struct Failing {
    files: MemFiles,
    out: MemSink,
    ended: Ended,
}

fn failing_run(
    rt: &(impl Threads + Wait + Sync),
    alloc: Global,
    way: &Way,
    call: u64,
    put: u64,
) -> Result<Failing, Fail> {
    let words = words_in(alloc, way.words)?;
    let given = [
        file("script", way.script.as_bytes()),
        file("in0", &IN0),
        file("in1", &IN1),
        file("out0", BEFORE),
        file("out1", BEFORE),
        file("journal", BEFORE),
    ];
    let mut files = files_of(alloc, &given, ROOM, way.is_slow, call)?;
    let mut out = sink(alloc, way.is_slow, put)?;
    let boxes = stock(alloc)?;
    stock_suffices();
    let ended = ngrun(rt, alloc, &words, &mut files, &mut out, boxes, &OpenGate);
    Ok(Failing { files, out, ended })
}

// Whether the output took the whole text.
fn has_text(out: &MemSink, way: &Way) -> bool {
    out.bytes() == way.text.as_bytes()
}

// A journal as a file.
fn journal_of(alloc: Global, journal: &Journal) -> Result<String, AllocError> {
    let mut text = String::from_str(alloc, "ngjournal 1\n")?;
    for event in journal.events() {
        let line = match event {
            Event::Feed => String::from_str(alloc, "F\n")?,
            Event::Take { id, seat } => {
                let id = id.0;
                format!(in alloc; "T {id} {seat}\n")?
            }
            Event::Back { id } => {
                let id = id.0;
                format!(in alloc; "B {id}\n")?
            }
            Event::Apply { id } => {
                let id = id.0;
                format!(in alloc; "A {id}\n")?
            }
            Event::Stop => String::from_str(alloc, "S\n")?,
        };
        text.push_str(line.as_str())?;
    }
    Ok(text)
}

// A file that could not be written: it holds what it held, or a prefix of what was to be written.
fn is_partly(files: &MemFiles, whole: &Held) -> bool {
    match files.bytes(whole.name) {
        Some(bytes) => bytes == BEFORE || whole.bytes.starts_with(bytes),
        None => false,
    }
}

// Whether the files from the failing one on are as they have to be, and those before it are whole.
fn is_cut_at(failing: &Failing, which: Which, journal: &str) -> bool {
    let files = &failing.files;
    let out0 = file("out0", &IN1);
    let out1 = file("out1", &IN0);
    let untouched1 = holds(files, &file("out1", BEFORE));
    let no_journal = holds(files, &file("journal", BEFORE));
    match which {
        Which::Leaving(0) => is_partly(files, &out0) && untouched1 && no_journal,
        Which::Leaving(1) => holds(files, &out0) && is_partly(files, &out1) && no_journal,
        Which::Journal => {
            let journal = file("journal", journal.as_bytes());
            holds(files, &out0) && holds(files, &out1) && is_partly(files, &journal)
        }
        _ => false,
    }
}

// Whether all three files hold this.
fn holds_all(files: &MemFiles, out0: &[u8], out1: &[u8], journal: &[u8]) -> bool {
    holds(files, &file("out0", out0))
        && holds(files, &file("out1", out1))
        && holds(files, &file("journal", journal))
}

// Which of the failing calls that have a name were met.
#[derive(Drop)]
struct Met {
    // `fresh` of an OUT: the file is as it was.
    fresh: bool,
    // The second `append` of the journal, after the first took one byte.
    second_append: bool,
}

impl Met {
    fn look(&mut self, failing: &Failing, which: Which) {
        let holds_before = holds(&failing.files, &file("out0", BEFORE));
        self.fresh |= which == Which::Leaving(0) && holds_before;
        let begun = holds(&failing.files, &file("journal", b"n"));
        self.second_append |= which == Which::Journal && begun;
    }
}

// Compares what stands after such a run whose call of the files failed, and tells whether one did.
fn check_call(
    rt: &(impl Abort + Threads + Wait + Sync),
    alloc: Global,
    way: &Way,
    call: u64,
    met: &mut Met,
) -> Result<bool, Fail> {
    let failing = failing_run(rt, alloc, way, call, 0)?;
    let ended = &failing.ended;
    let files = &failing.files;
    let journal = journal_of(alloc, &ended.journal)?;
    match ended.fault {
        None => {
            assert_eq!(rt; ended.status, 0);
            assert!(rt; holds_all(files, &IN1, &IN0, journal.as_bytes()));
        }
        Some(Fault::ReadFault(_)) => {
            assert_eq!(rt; ended.status, 66, "call {call}");
            assert_eq!(rt; ended.journal.len(), 0, "call {call}");
            assert_eq!(rt; failing.out.calls(), 0, "call {call}");
            assert!(rt; holds_all(files, BEFORE, BEFORE, BEFORE), "call {call}");
            return Ok(true);
        }
        Some(Fault::WriteFault(which)) => {
            assert_eq!(rt; ended.status, 74, "call {call}");
            assert!(rt; is_cut_at(&failing, which, journal.as_str()), "call {call}");
            met.look(&failing, which);
        }
        Some(_) => return Err(Fail::new("another fault")),
    }
    assert_eq!(rt; ended.journal.len(), way.events, "call {call}");
    assert!(rt; has_text(&failing.out, way), "call {call}");
    Ok(ended.fault.is_some())
}

// Goes through the calls of the files by one way, and tells how many there are.
fn check_calls(
    rt: &(impl Abort + Threads + Wait + Sync),
    alloc: Global,
    way: &Way,
    met: &mut Met,
) -> Result<u64, Fail> {
    for call in 1..MANY {
        if !check_call(rt, alloc, way, call, met)? {
            return Ok(call - 1);
        }
    }
    Err(Fail::new("some call fails again and again"))
}

#[test]
fn each_call_of_the_files_may_fail(rt: HostRuntime) -> Result<(), Fail> {
    for way in &WAYS {
        let mut met = Met {
            fresh: false,
            second_append: false,
        };
        let calls = check_calls(&rt, rt.alloc(), way, &mut met)?;
        // The script and the captures are read to their ends, and three files are written.
        let least = if way.is_slow { 500 } else { 3 + 3 * 2 };
        assert!(rt; calls >= least, "{calls} calls of {}", way.words);
        assert!(rt; met.fresh);
        assert_eq!(rt; met.second_append, way.is_slow);
    }
    Ok(())
}

// Whether the output took as many puts as there were before the one that failed: a byte each, or the whole piece.
fn is_cut_before(way: &Way, taken: &[u8], put: u64) -> bool
    requires { 0 < put }
{
    if way.is_slow {
        return way.text.as_bytes().starts_with(taken) && taken.len() as u64 == put - 1;
    }
    taken.is_empty() && put == 1
}

// Compares what stands after such a run whose put failed, and tells whether one did.
fn check_put(
    rt: &(impl Abort + Threads + Wait + Sync),
    alloc: Global,
    way: &Way,
    put: u64,
) -> Result<bool, Fail>
    requires { 0 < put }
{
    let failing = failing_run(rt, alloc, way, 0, put)?;
    let ended = &failing.ended;
    assert_eq!(rt; ended.journal.len(), way.events, "put {put}");
    if ended.fault.is_none() {
        assert_eq!(rt; ended.status, 0);
        assert!(rt; has_text(&failing.out, way));
        return Ok(false);
    }
    assert_eq!(rt; ended.status, 74, "put {put}");
    assert_eq!(rt;
        ended.fault,
        Some(Fault::WriteFault(Which::Sink)),
        "put {put}"
    );
    assert!(rt; is_cut_before(way, failing.out.bytes(), put), "put {put}");
    assert!(rt;
        holds_all(&failing.files, BEFORE, BEFORE, BEFORE),
        "put {put}"
    );
    Ok(true)
}

// Goes through the puts of the text by one way, and tells how many there are.
fn check_puts(
    rt: &(impl Abort + Threads + Wait + Sync),
    alloc: Global,
    way: &Way,
) -> Result<u64, Fail> {
    for put in 1..MANY {
        if !check_put(rt, alloc, way, put)? {
            return Ok(put - 1);
        }
    }
    Err(Fail::new("some put fails again and again"))
}

#[test]
fn each_put_of_the_text_may_fail(rt: HostRuntime) -> Result<(), Fail> {
    for way in &WAYS {
        let puts = check_puts(&rt, rt.alloc(), way)?;
        // The text is one piece, and a slow output takes it byte by byte.
        let all = if way.is_slow { way.text.len() } else { 1 };
        assert_eq!(rt; puts, all as u64, "{}", way.words);
    }
    Ok(())
}
