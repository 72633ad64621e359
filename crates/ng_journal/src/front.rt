// A line as a journal is written, at the front of a text, read in one pass. Lines that aren't so are left to others.
ghost use Rattle.std.specs.Prelude.{◌≡◌, ◌++◌, ◌∷◌, ◌≤◌, ◌<◌, ◌^◌, codes, IfSome};
ghost use Rattle.std.specs.Fmt.{decimal};
ghost use Rattle.ng_journal.specs.Fronts.{BeginsWithLine, BeginsWithNumber};

use ng_base::{Event, ItemId};

/// However great the digits, a first one and so many more make a number of 64 bits.
const MORE_DIGITS: usize = 18;

/// The number that goes on with the digits at the front of a text, and what stands behind those.
fn more_digits(first: u64, text: &[u8]) -> (u64, &[u8])
    requires some { 1 ≤ first }
    requires one_digit { first ≤ 9 }
    ensures digits { decimal first ++ text.now ≡ decimal result.0 ++ result.1.now }
    ensures low { result.0 < 2 ^ 64 }
{
    let most = text.len().min(MORE_DIGITS);
    let mut number = first;
    let mut end = 0;
    while end < most && text[end].is_ascii_digit() {
        number = number * 10 + u64::from(text[end] - b'0');
        end += 1;
    }
    (number, &text[end..])
}

/// A number at the front of a text, and what stands behind its digits. `None` where no digit stands there.
fn front_number(text: &[u8]) -> Option<(u64, &[u8])>
    ensures { IfSome result (λ found. BeginsWithNumber text.now found.0 found.1.now) }
{
    match text {
        [b'0', rest @ ..] => Some((0, rest)),
        [first @ b'1'..=b'9', rest @ ..] => Some(more_digits(u64::from(*first - b'0'), rest)),
        _ => None,
    }
}

/// A number at the front of a text up to this byte, and what stands behind the byte. `None` where the text isn't so.
fn number_before(text: &[u8], end: u8) -> Option<(u64, &[u8])>
    ensures { IfSome result (λ found. BeginsWithNumber text.now found.0 (end ∷ found.1.now)) }
{
    let (number, rest) = front_number(text)?;
    match rest {
        [byte, behind @ ..] if *byte == end => Some((number, behind)),
        _ => None,
    }
}

/// The event of a line `T ID SEAT`, from its id on.
fn front_take(text: &[u8]) -> Option<(Event, &[u8])>
    ensures { IfSome result (λ found. BeginsWithLine (codes "T " ++ text.now) found.0 found.1.now) }
{
    let (id, rest) = number_before(text, b' ')?;
    let (seat, behind) = number_before(rest, b'\n')?;
    if seat > u64::from(u32::MAX) {
        return None;
    }
    let event = Event::Take {
        id: ItemId(id),
        seat: seat as u32,
    };
    Some((event, behind))
}

/// The event whose line, as it is written, stands at the front of a text, and what stands behind the line. `None` where no
/// line stands there that is written so, or where a number has 20 digits: then nothing is said of the text.
pub(crate) fn front_event(text: &[u8]) -> Option<(Event, &[u8])>
    ensures { IfSome result (λ found. BeginsWithLine text.now found.0 found.1.now) }
{
    match text {
        [b'F', b'\n', rest @ ..] => Some((Event::Feed, rest)),
        [b'T', b' ', rest @ ..] => front_take(rest),
        [b'B', b' ', rest @ ..] => {
            let (id, behind) = number_before(rest, b'\n')?;
            Some((Event::Back { id: ItemId(id) }, behind))
        }
        [b'A', b' ', rest @ ..] => {
            let (id, behind) = number_before(rest, b'\n')?;
            Some((Event::Apply { id: ItemId(id) }, behind))
        }
        [b'S', b'\n', rest @ ..] => Some((Event::Stop, rest)),
        _ => None,
    }
}
