// The first part of a text that is split at a byte.
ghost use Rattle.std.specs.Prelude.{◌≡◌, ◌<◌, ◌==◌, ◌∷◌, [], ℕ, MatchOption, IfSome, length, position};
ghost use Rattle.std.specs.List.{slice_split};

fn place_of(text: &[u8], byte: u8) -> Option<usize>
    ensures { result ≡ position (λ b. b == byte) text.now }
{
    text.iter().position(|other| *other == byte)
}

/// What stands before the first such byte, and what behind it; `None` where there is no such byte.
pub(crate) fn split_first(text: &[u8], byte: u8) -> Option<(&[u8], &[u8])>
    ensures parts { MatchOption result
        (slice_split (λ (b : ℕ). b == byte) text.now ≡ text.now ∷ [])
        (λ found. slice_split (λ (b : ℕ). b == byte) text.now ≡ found.0.now ∷ slice_split (λ (b : ℕ). b == byte) found.1.now) }
    ensures shorter { IfSome result (λ found. length found.1.now < length text.now) }
{
    match place_of(text, byte) {
        Some(place) => Some((&text[..place], &text[place + 1..])),
        None => None,
    }
}
