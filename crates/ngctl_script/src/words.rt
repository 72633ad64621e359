// The words of a line.
ghost use Rattle.std.specs.Prelude.{◌≡◌, ◌<◌, ◌≤◌, ◌∷◌, [], List, ℕ, MatchOption, IfSome, length, position};
ghost use Rattle.ngctl_script.specs.Lines.{is_blank as is_a_blank, past_blanks};
ghost use Rattle.ngctl_script.specs.Words.{past_word, words_in};
ghost use Rattle.ngctl_script.specs.Reading.{AreWords};

use crate::lines::{is_blank, skip_blanks};

/// Words, as long as they are few.
#[derive(Drop)]
pub(crate) enum Words<'a> {
    Zero,
    One(&'a [u8]),
    Two(&'a [u8], &'a [u8]),
    Three(&'a [u8], &'a [u8], &'a [u8]),
    Four(&'a [u8], &'a [u8], &'a [u8], &'a [u8]),
    More,
}

fn first_blank(text: &[u8]) -> Option<usize>
    ensures { result ≡ position is_a_blank text.now }
{
    text.iter().position(|byte| is_blank(*byte))
}

/// The next word, and what follows it; or `None` where no word is left.
pub(crate) fn next_word(text: &[u8]) -> Option<(&[u8], &[u8])>
    ensures word { MatchOption result (words_in text.now ≡ []) (λ found. words_in text.now ≡ found.0.now ∷ words_in found.1.now) }
    ensures behind { IfSome result (λ found. found.1.now ≡ past_word (past_blanks text.now)) }
    ensures shorter { IfSome result (λ found. length found.1.now < length text.now) }
{
    let text = skip_blanks(text);
    if text.is_empty() {
        return None;
    }
    match first_blank(text) {
        None => Some((text, &text[text.len()..])),
        Some(place) => Some((&text[..place], &text[place..])),
    }
}

/// The words of a text.
pub(crate) fn few_words(text: &[u8]) -> Words<'_>
    ensures { AreWords result (words_in text.now) }
{
    let Some((first, rest)) = next_word(text) else {
        return Words::Zero;
    };
    let Some((second, rest)) = next_word(rest) else {
        return Words::One(first);
    };
    let Some((third, rest)) = next_word(rest) else {
        return Words::Two(first, second);
    };
    let Some((fourth, rest)) = next_word(rest) else {
        return Words::Three(first, second, third);
    };
    match next_word(rest) {
        None => Words::Four(first, second, third, fourth),
        Some(_) => Words::More,
    }
}
