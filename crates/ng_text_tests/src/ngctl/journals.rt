// Journals, as they are written and as they are read.
use crate::ngctl::same::holds;
use ng_base::{Event, ItemId};
use ng_journal::kept::Journal;
use ng_journal::{JournalFault, put_journal, read_journal};
use std::test::Fail;

const EVENTS: [Event; 9] = [
    Event::Feed,
    Event::Take {
        id: ItemId(1),
        seat: 0,
    },
    Event::Apply { id: ItemId(1) },
    Event::Feed,
    Event::Take {
        id: ItemId(2),
        seat: 4_294_967_295,
    },
    Event::Back { id: ItemId(2) },
    Event::Take {
        id: ItemId(18_446_744_073_709_551_615),
        seat: 10,
    },
    Event::Apply { id: ItemId(0) },
    Event::Stop,
];

const TEXT: &str =
    "ngjournal 1\nF\nT 1 0\nA 1\nF\nT 2 4294967295\nB 2\nT 18446744073709551615 10\nA 0\nS\n";

#[test]
fn a_journal_is_written(rt: HostRuntime) -> Result<(), Fail> {
    let alloc = rt.alloc();
    let mut out = Vec::new(alloc);
    let mut journal = Journal::new(alloc);
    for event in EVENTS {
        journal.push(event)?;
    }
    put_journal(alloc, &mut out, &journal)?;
    assert_eq!(rt; out.as_slice(), TEXT.as_bytes());
    Ok(())
}

#[test]
fn a_journal_is_read(rt: HostRuntime) -> Result<(), Fail> {
    let alloc = rt.alloc();
    let journal = read_journal(alloc, TEXT.as_bytes())?;
    let events: Vec<Event> = journal.events().collect(alloc)?;
    assert!(rt; events.as_slice() == EVENTS.as_slice());
    for at in 0..=EVENTS.len() {
        assert_eq!(rt; journal.get(at), EVENTS.get(at).copied());
    }
    let again = read_journal(alloc, TEXT.as_bytes())?;
    assert!(rt; journal.events().eq(again.events()));
    Ok(())
}

const BAD: [(&str, u64); 25] = [
    ("", 1),
    ("\n", 1),
    ("ngjournal 1", 1),
    ("ngjournal 2\n", 1),
    ("ngjournal 1 \n", 1),
    ("ngjournal 1\r\n", 1),
    ("F\n", 1),
    ("ngjournal 1\nF", 2),
    ("ngjournal 1\n\n", 2),
    ("ngjournal 1\nF\nT 01 0\nA 1\n", 3),
    ("ngjournal 1\nF\nT 1 0", 3),
    ("ngjournal 1\nF \n", 2),
    ("ngjournal 1\n F\n", 2),
    ("ngjournal 1\nf\n", 2),
    ("ngjournal 1\nFF\n", 2),
    ("ngjournal 1\nT 1\n", 2),
    ("ngjournal 1\nT 1 0 0\n", 2),
    ("ngjournal 1\nT  1 0\n", 2),
    ("ngjournal 1\nT 1 4294967296\n", 2),
    ("ngjournal 1\nA\n", 2),
    ("ngjournal 1\nA 1 0\n", 2),
    ("ngjournal 1\nA +1\n", 2),
    ("ngjournal 1\nB 18446744073709551616\n", 2),
    ("ngjournal 1\nS 1\n", 2),
    ("ngjournal 1\nS\r\n", 2),
];

#[test]
fn a_file_that_is_no_journal_is_refused(rt: HostRuntime) {
    for (text, line) in BAD {
        let fault = read_journal(rt.alloc(), text.as_bytes()).err();
        holds(&rt, fault == Some(JournalFault::BadLine(line)), text);
    }
}
