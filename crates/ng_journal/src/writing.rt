// A journal as the bytes of a file.
ghost use Rattle.std.specs.Prelude.{◌≡◌, ◌++◌, OnOk};
ghost use Rattle.std.specs.Fmt.{decimal};
ghost use Rattle.std.specs.List.{flat_map};
ghost use Rattle.ng_journal.specs.Journal.{event_line, event_words, journal_text};

use crate::kept::Journal;
use ng_base::{Event, NoMemory};
use std::alloc::Global;

fn put_number(alloc: Global, out: &mut Vec<u8>, number: u64) -> Result<(), NoMemory>
    ensures { OnOk result (out.new.items ≡ out.old.items ++ decimal number) }
{
    let text = format!(in alloc; "{number}")?;
    out.extend_from_slice(text.as_bytes())?;
    Ok(())
}

fn put_words(alloc: Global, out: &mut Vec<u8>, event: Event) -> Result<(), NoMemory>
    ensures { OnOk result (out.new.items ≡ out.old.items ++ event_words event) }
{
    match event {
        Event::Feed => out.extend_from_slice(b"F")?,
        Event::Take { id, seat } => {
            out.extend_from_slice(b"T ")?;
            put_number(alloc, out, id.0)?;
            out.push(b' ')?;
            put_number(alloc, out, u64::from(seat))?;
        }
        Event::Back { id } => {
            out.extend_from_slice(b"B ")?;
            put_number(alloc, out, id.0)?;
        }
        Event::Apply { id } => {
            out.extend_from_slice(b"A ")?;
            put_number(alloc, out, id.0)?;
        }
        Event::Stop => out.extend_from_slice(b"S")?,
    }
    Ok(())
}

fn put_lines(alloc: Global, out: &mut Vec<u8>, journal: &Journal) -> Result<(), NoMemory>
    ensures { OnOk result (out.new.items ≡ out.old.items ++ flat_map event_line journal.now.items) }
{
    for event in journal.events() {
        put_words(alloc, out, event)?;
        out.push(b'\n')?;
    }
    Ok(())
}

/// Appends a journal as a file has it: the line `ngjournal 1`, and a line for each event, `F` for one that feeds, `T ID SEAT`
/// for one that takes, `B ID` for one that puts back, `A ID` for one that applies and `S` for one that stops. Numbers are
/// decimal, and each line ends with LF.
///
/// # Errors
/// `NoMemory` where memory ran out, and for nothing else.
pub fn put_journal(alloc: Global, out: &mut Vec<u8>, journal: &Journal) -> Result<(), NoMemory>
    ensures { OnOk result (out.new.items ≡ out.old.items ++ journal_text journal.now.items) }
{
    out.extend_from_slice(b"ngjournal 1\n")?;
    put_lines(alloc, out, journal)?;
    Ok(())
}
