// The lines of a script, and what each of them is.
ghost use Rattle.std.specs.Prelude.{◌≡◌, ◌<◌, ◌≤◌, ◌==◌, ◌∷◌, [], List, ℕ, MatchOption, IfSome, length, position, reverse};
ghost use Rattle.ngctl_script.specs.Lines.{is_blank as is_a_blank, line_of as what_line, lines_of, past_blanks, trimmed, without_cr};
ghost use Rattle.ngctl_script.specs.Reading.{line_seen};

use crate::When;
use crate::marks::read_mark;

/// What a line is.
#[derive(Drop)]
pub(crate) enum Line<'a> {
    /// No bytes but blanks, or a comment.
    Skipped,
    /// A mark, or `None` where what stands behind the `@` is no mark.
    Mark(Option<When>),
    /// A command: the line without the blanks at its ends.
    Command(&'a [u8]),
}

fn first_end(text: &[u8]) -> Option<usize>
    ensures { result ≡ position (λ byte. byte == 0x0a) text.now }
{
    text.iter().position(|byte| *byte == b'\n')
}

/// The line without the CR at its end.
fn without_return(line: &[u8]) -> &[u8]
    ensures { result.now ≡ without_cr line.now }
{
    match line {
        [front @ .., last] if *last == b'\r' => front,
        _ => line,
    }
}

/// The next line, without its end, and what follows it; or `None` where nothing is left.
pub(crate) fn next_line(text: &[u8]) -> Option<(&[u8], &[u8])>
    ensures line { MatchOption result (lines_of text.now ≡ []) (λ found. lines_of text.now ≡ found.0.now ∷ lines_of found.1.now) }
    ensures shorter { IfSome result (λ found. length found.1.now < length text.now) }
{
    if text.is_empty() {
        return None;
    }
    match first_end(text) {
        None => Some((text, &text[text.len()..])),
        Some(place) => Some((without_return(&text[..place]), &text[place + 1..])),
    }
}

pub(crate) fn is_blank(byte: u8) -> bool
    ensures { result ≡ is_a_blank byte }
{
    byte == b' ' || byte == b'\t'
}

/// The text without the blanks in front of it.
pub(crate) fn skip_blanks(text: &[u8]) -> &[u8]
    ensures { result.now ≡ past_blanks text.now }
{
    let mut rest = text;
    while let [byte, after @ ..] = rest {
        if !is_blank(*byte) {
            return rest;
        }
        rest = after;
    }
    rest
}

/// The text without the blanks behind it.
fn drop_blanks(text: &[u8]) -> &[u8]
    ensures { result.now ≡ reverse (past_blanks (reverse text.now)) }
{
    let mut rest = text;
    while let [front @ .., byte] = rest {
        if !is_blank(*byte) {
            return rest;
        }
        rest = front;
    }
    rest
}

/// The line without the blanks at its ends.
fn trim(line: &[u8]) -> &[u8]
    ensures { result.now ≡ trimmed line.now }
{
    drop_blanks(skip_blanks(line))
}

/// What the line is.
pub(crate) fn line_of(line: &[u8]) -> Line<'_>
    ensures { line_seen result ≡ what_line line.now }
{
    let text = trim(line);
    match text {
        [] | [b'#', ..] => Line::Skipped,
        [b'@', mark @ ..] => Line::Mark(read_mark(mark)),
        _ => Line::Command(text),
    }
}
