// Lists of words.
ghost use Rattle.std.specs.Prelude.{◌≡◌, not, map, string_bytes};
ghost use Rattle.std.specs.List.{list_all, list_any};
ghost use Rattle.std.specs.Str.{bytes_eq};
ghost use Rattle.ng_args.specs.Names.{is_dashed};
ghost use Rattle.ng_args.specs.Lists.{has_word as has_the_word, are_apart as are_all_apart, are_undashed as are_all_undashed};
ghost use Rattle.ng_base.specs.Names.{are_different as are_all_different};

use crate::names::begins_with_dash;

fn is_among(words: &[&str], word: &str) -> bool
    ensures { result ≡ list_any (λ other. bytes_eq other.now word.now) words.now }
{
    words.iter().any(|other| *other == word)
}

/// Whether the word is among the words.
pub(crate) fn has_word(words: &[&str], word: &str) -> bool
    ensures { result ≡ has_the_word (map (λ other. other.now) words.now) word.now }
{
    is_among(words, word)
}

/// Whether no word stands twice.
pub(crate) fn are_different(words: &[&str]) -> bool
    ensures { result ≡ are_all_different (map (λ word. word.now) words.now) }
{
    for (place, word) in words.iter().enumerate() {
        if has_word(&words[place + 1..], word) {
            return false;
        }
    }
    true
}

fn is_none_among(words: &[&str], others: &[&str]) -> bool
    ensures { result ≡ list_all (λ word. not (has_the_word (map (λ other. other.now) others.now) word.now)) words.now }
{
    words.iter().all(|word| !has_word(others, word))
}

/// Whether no word stands among the others.
pub(crate) fn are_apart(words: &[&str], others: &[&str]) -> bool
    ensures { result ≡ are_all_apart (map (λ word. word.now) words.now) (map (λ word. word.now) others.now) }
{
    is_none_among(words, others)
}

fn is_none_dashed(words: &[String]) -> bool
    ensures { result ≡ list_all (λ word. not (is_dashed (string_bytes word))) words.now }
{
    words.iter().all(|word| !begins_with_dash(word.as_str()))
}

/// Whether no word begins with a dash.
pub(crate) fn are_undashed(words: &[String]) -> bool
    ensures { result ≡ are_all_undashed (map (λ word. string_bytes word) words.now) }
{
    is_none_dashed(words)
}
