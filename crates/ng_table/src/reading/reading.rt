// Reading a message's name and text.
ghost use Rattle.std.specs.Prelude.{◌≡◌, ◌++◌, IfOk, Some};
ghost use Rattle.ng_table.specs.reading.Reading.{at_place, fault_words, read_by, reading, reading_of};
ghost use Rattle.ng_table.specs.Message.{message_of};

use crate::{Row, find_name};
use ng_base::{Bytes, Kind, NoMemory};
use ng_parse::{TextFault, to_bytes};
use std::alloc::Global;

/// What a name and a text ask for.
#[derive(Drop)]
pub enum Found {
    /// A node of the type knows no message of the name.
    Unknown,
    /// The text is no form of the message's arguments, with the words that tell why.
    Wrong(Bytes),
    /// A message.
    Message {
        /// Its cookie: the type's own, or that of messages which all nodes know.
        cookie: u32,
        /// Its number.
        number: u32,
        /// Its arguments, as they lie in the message.
        args: Bytes,
    },
}

fn words_at(alloc: Global, place: usize, why: &str) -> Result<Bytes, NoMemory>
    ensures { IfOk result (λ words. words ≡ at_place place why.now) }
{
    let words = format!(in alloc; "bad arguments at {place}: {why}")?;
    Ok(Bytes(words.into_bytes()))
}

fn words_of(alloc: Global, fault: TextFault) -> Result<Bytes, NoMemory>
    ensures { IfOk result (λ words. words ≡ fault_words fault) }
{
    match fault {
        TextFault::Unexpected(place) => words_at(alloc, place, "unexpected"),
        TextFault::UnknownField(place) => words_at(alloc, place, "unknown field"),
        TextFault::Twice(place) => words_at(alloc, place, "field twice"),
        TextFault::Range(place) => words_at(alloc, place, "out of range"),
        TextFault::TooMany(place) => words_at(alloc, place, "too many"),
        TextFault::NoMemory => Err(NoMemory),
    }
}

fn read_arguments(alloc: Global, cookie: u32, row: &Row, text: &[u8]) -> Result<Found, NoMemory>
    ensures { IfOk result (λ found. reading_of found ≡ read_by (Some (cookie, message_of row.now)) text.now) }
{
    match to_bytes(alloc, row.args, text) {
        Ok(args) => Ok(Found::Message {
            cookie,
            number: row.number,
            args: Bytes(args),
        }),
        Err(TextFault::NoMemory) => Err(NoMemory),
        Err(fault) => Ok(Found::Wrong(words_of(alloc, fault)?)),
    }
}

/// The message of that name, for a node of the type, with arguments that the text says: one of the type's own messages,
/// or one that all nodes know (ngctl(8), msg). `Unknown` exactly where the table has no such message, and `Wrong` exactly
/// where the text is no form of its arguments, with `bad arguments at PLACE: WHY`.
///
/// # Errors
/// `NoMemory` where memory ran out, and for nothing else.
pub fn read_message(alloc: Global, kind: Kind, name: &[u8], text: &[u8]) -> Result<Found, NoMemory>
    ensures { IfOk result (λ found. reading_of found ≡ reading kind name.now text.now) }
{
    let Some((cookie, row)) = find_name(kind, name) else {
        return Ok(Found::Unknown);
    };
    read_arguments(alloc, cookie, row, text)
}
