// A journal that the bytes of a file are.
ghost use Rattle.std.specs.Prelude.{◌≡◌, ◌∷◌, [], MatchOption, MatchResult, Ok};
ghost use Rattle.ng_journal.specs.Fronts.{IsFirstEvent};
ghost use Rattle.ng_journal.specs.Reading.{event_of, events_from, id_of, item_event, journal_of, lines_of, plain_event, take_event, words_of, IsTold};

use crate::JournalFault;
use crate::front::front_event;
use crate::kept::Journal;
use crate::split::split_first;
use ng_base::{Event, ItemId};
use ng_decimal::read_decimal;
use std::alloc::Global;

const LINE_FEED: u8 = b'\n';

const BLANK: u8 = b' ';

/// The first line.
const HEAD: &[u8] = b"ngjournal 1";

fn read_id(word: &[u8]) -> Option<ItemId>
    ensures { result ≡ id_of word.now }
{
    match read_decimal(word, 0, u64::MAX) {
        Some(number) => Some(ItemId(number)),
        None => None,
    }
}

fn read_plain(word: &[u8]) -> Option<Event>
    ensures { result ≡ plain_event word.now }
{
    match word {
        [b'F'] => Some(Event::Feed),
        [b'S'] => Some(Event::Stop),
        _ => None,
    }
}

fn read_item(word: &[u8], id: &[u8]) -> Option<Event>
    ensures { result ≡ item_event word.now id.now }
{
    match word {
        [b'B'] => {
            let id = read_id(id)?;
            Some(Event::Back { id })
        }
        [b'A'] => {
            let id = read_id(id)?;
            Some(Event::Apply { id })
        }
        _ => None,
    }
}

fn read_take(word: &[u8], id: &[u8], seat: &[u8]) -> Option<Event>
    ensures { result ≡ take_event word.now id.now seat.now }
{
    match word {
        [b'T'] => {
            let id = read_id(id)?;
            let seat = read_decimal(seat, 0, u64::from(u32::MAX))?;
            Some(Event::Take {
                id,
                seat: seat as u32,
            })
        }
        _ => None,
    }
}

fn read_event(line: &[u8]) -> Option<Event>
    ensures { result ≡ event_of (words_of line.now) }
{
    let Some((word, rest)) = split_first(line, BLANK) else {
        return read_plain(line);
    };
    let Some((id, seat)) = split_first(rest, BLANK) else {
        return read_item(word, rest);
    };
    match split_first(seat, BLANK) {
        None => read_take(word, id, seat),
        Some(_) => None,
    }
}

/// The event of the first line of a text, if the line says one, and what stands behind the line; `None` where no line ends.
fn first_event(text: &[u8]) -> Option<(Option<Event>, &[u8])>
    ensures { MatchOption result (lines_of text.now ≡ text.now ∷ []) (λ found. IsFirstEvent text.now found.0 found.1.now) }
{
    if let Some((event, rest)) = front_event(text) {
        return Some((Some(event), rest));
    }
    let (line, rest) = split_first(text, LINE_FEED)?;
    Some((read_event(line), rest))
}

/// The events of the lines behind the head.
fn read_events(alloc: Global, text: &[u8]) -> Result<Journal, JournalFault>
    ensures { MatchResult result (λ events. events_from 2 (lines_of text.now) ≡ Ok events.items) (IsTold (events_from 2 (lines_of text.now))) }
{
    let mut events = Journal::new(alloc);
    let mut rest = text;
    let mut line = 2;
    while let Some((event, behind)) = first_event(rest) {
        let Some(event) = event else {
            return Err(JournalFault::BadLine(line));
        };
        events.push(event)?;
        rest = behind;
        line += 1;
    }
    if rest.is_empty() {
        Ok(events)
    } else {
        Err(JournalFault::BadLine(line))
    }
}

/// The journal that the bytes of a file are: the line `ngjournal 1`, and lines `F`, `T ID SEAT`, `B ID`, `A ID` and `S` with
/// one blank between fields. Numbers are decimal without a zero in front of others, ids below 2^64 and seats below 2^32.
/// Each line ends with LF, the last one too.
///
/// # Errors
/// `BadLine` with the number, from 1, of the first line that isn't so, and `NoMemory` where memory ran out.
pub fn read_journal(alloc: Global, bytes: &[u8]) -> Result<Journal, JournalFault>
    ensures { MatchResult result (λ events. journal_of bytes.now ≡ Ok events.items) (IsTold (journal_of bytes.now)) }
{
    match split_first(bytes, LINE_FEED) {
        Some((first, rest)) if first == HEAD => read_events(alloc, rest),
        _ => Err(JournalFault::BadLine(1)),
    }
}
