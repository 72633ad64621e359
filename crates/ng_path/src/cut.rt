// Bytes and the marks that part them.
ghost use Rattle.std.specs.Prelude.{◌≡◌, ◌==◌, ◌∷◌, ◌++◌, [], ℕ, List, MatchOption, position};
ghost use Rattle.ng_path.specs.Segments.{cut_at};

fn first_place(bytes: &[u8], mark: u8) -> Option<usize>
    ensures { result ≡ position (λ byte. byte == mark) bytes.now }
{
    bytes.iter().position(|byte| *byte == mark)
}

/// The bytes before the first `mark`, and those behind it where there is one.
pub(crate) fn cut(bytes: &[u8], mark: u8) -> (&[u8], Option<&[u8]>)
    ensures parts { MatchOption result.1 (cut_at mark bytes.now ≡ result.0.now ∷ [])
        (λ rest. cut_at mark bytes.now ≡ result.0.now ∷ cut_at mark rest.now) }
    ensures whole { MatchOption result.1 (bytes.now ≡ result.0.now)
        (λ rest. bytes.now ≡ result.0.now ++ mark ∷ rest.now) }
{
    match first_place(bytes, mark) {
        None => (bytes, None),
        Some(place) => (&bytes[..place], Some(&bytes[place + 1..])),
    }
}

/// What is behind a dot, or `None` where the bytes begin with none.
pub(crate) fn after_dot(bytes: &[u8]) -> Option<&[u8]>
    ensures { MatchOption result ((rest : List ℕ) → bytes.now ≡ 0x2e ∷ rest → ⊥) (λ rest. bytes.now ≡ 0x2e ∷ rest.now) }
{
    bytes.strip_prefix(b".")
}
