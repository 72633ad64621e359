// Runs in which memory runs out: nothing is written, and the journal of what was done until then comes back.
use crate::fakes::{ROOM, file, files_of, holds, sink, words_in};
use crate::runs::starving::starve;
use ng_base::{Event, ItemId};
use ng_call::Fault;
use ng_outside::OpenGate;
use ng_run::ngrun;
use ng_stock::{stock, stock_suffices};
use std::alloc::Global;
use std::process::Abort;
use std::sync::Wait;
use std::test::Fail;
use std::thread::Threads;

// The hub is made by an order, and the message would change it.
const SCRIPT: &[u8] = b"mkpeer . hub a x\nmsg a setpersistent\nlist\n";

const BEFORE: &[u8] = b"before";

// The words, and the events of the journal but for their seats.
#[derive(Drop)]
struct Way {
    words: &'static str,
    events: &'static [Event],
}

const WAYS: [Way; 2] = [
    // What was taken is dropped.
    Way {
        words: "-j journal script",
        events: &[
            Event::Feed,
            Event::Take {
                seat: 0,
                id: ItemId(1),
            },
            Event::Apply { id: ItemId(1) },
            Event::Feed,
            Event::Take {
                seat: 0,
                id: ItemId(2),
            },
        ],
    },
    // What was taken is put back.
    Way {
        words: "-w 2 -j journal script",
        events: &[
            Event::Feed,
            Event::Take {
                seat: 0,
                id: ItemId(1),
            },
            Event::Apply { id: ItemId(1) },
            Event::Feed,
            Event::Take {
                seat: 0,
                id: ItemId(2),
            },
            Event::Back { id: ItemId(2) },
        ],
    },
];

// An event, of the seat 0 where it says a seat.
fn unseated(event: Event) -> Event {
    match event {
        Event::Take { seat: _, id } => Event::Take { seat: 0, id },
        other => other,
    }
}

fn check(rt: &(impl Abort + Threads + Wait + Sync), alloc: Global, way: &Way) -> Result<(), Fail> {
    let words = words_in(alloc, way.words)?;
    let given = [file("script", SCRIPT), file("journal", BEFORE)];
    let mut files = files_of(alloc, &given, ROOM, false, 0)?;
    let mut out = sink(alloc, false, 0)?;
    let boxes = starve(alloc, stock(alloc)?)?;
    stock_suffices();
    let ended = ngrun(rt, alloc, &words, &mut files, &mut out, boxes, &OpenGate);
    assert_eq!(rt; ended.fault, Some(Fault::NoMemory), "{}", way.words);
    assert_eq!(rt; ended.status, 71, "{}", way.words);
    let mut events = Vec::new(alloc);
    for event in ended.journal.events() {
        events.push(unseated(event))?;
    }
    assert_eq!(rt; events.as_slice(), way.events, "{}", way.words);
    assert_eq!(rt; out.calls(), 0, "{}", way.words);
    assert!(rt; holds(&files, &file("journal", BEFORE)), "{}", way.words);
    Ok(())
}

#[test]
fn the_journal_comes_back_without_memory(rt: HostRuntime) -> Result<(), Fail> {
    for way in &WAYS {
        check(&rt, rt.alloc(), way)?;
    }
    Ok(())
}
