// The options in front of a command line.
ghost use Rattle.std.specs.Prelude.{◌≡◌, List, ℕ, IfOk, MatchOption, Some, None, map, string_bytes};
ghost use Rattle.std.specs.List.{list_any};
ghost use Rattle.std.specs.Str.{bytes_eq};
ghost use Rattle.std.specs.Option.{option_copied};
ghost use Rattle.ng_args.specs.Lists.{has_word as has_the_word};
ghost use Rattle.ng_args.specs.Options.{Setting as OneSetting, is_setting as is_a_setting, options, option_names, cut_of, value_of as the_value_of};
ghost use Rattle.ng_args.specs.Settings.{settings_of};

use crate::lists::are_undashed;
use crate::names::begins_with_dash;
use ng_base::NoMemory;
use std::alloc::Global;

/// An option and its value, each a word.
#[derive(Clone, Copy)]
pub(crate) struct Setting<'a> {
    option: &'a str,
    value: &'a str,
}

fn is_option(word: &str) -> bool
    ensures { result ≡ has_the_word options word.now }
{
    word == "-w" || word == "-b" || word == "-n" || word == "-j" || word == "-g"
}

fn is_setting(option: &str, value: &str) -> bool
    ensures { result ≡ is_a_setting (record { option = option.now; value = value.now }) }
{
    is_option(option) && !begins_with_dash(value)
}

fn is_among(settings: &[Setting], option: &str) -> bool
    ensures { result ≡ list_any (λ setting. bytes_eq setting.option.now option.now) settings.now }
{
    settings.iter().any(|setting| setting.option == option)
}

fn is_given(settings: &[Setting], option: &str) -> bool
    ensures { result ≡ has_the_word (option_names (settings_of settings.now)) option.now }
{
    is_among(settings, option)
}

/// The value of an option, where it is given.
pub(crate) fn value_of<'a>(option: &str, settings: &[Setting<'a>]) -> Option<&'a str>
    ensures { option_copied result ≡ the_value_of option.now (settings_of settings.now) }
{
    for setting in settings {
        if setting.option == option {
            return Some(setting.value);
        }
    }
    None
}

/// The options of a command line, and its other words.
///
/// # Errors
/// `NoMemory` where memory ran out, and for nothing else.
pub(crate) fn cut_words<'a>(
    alloc: Global,
    words: &'a [String],
) -> Result<Option<(Vec<Setting<'a>>, &'a [String])>, NoMemory>
    ensures { IfOk result (λ found. MatchOption found
        (cut_of (map (λ word. string_bytes word) words.now) ≡ None)
        (λ cut. cut_of (map (λ word. string_bytes word) words.now)
        ≡ Some (record { settings = settings_of cut.0.items; others = map (λ word. string_bytes word) cut.1.now }))) }
{
    let mut settings = Vec::new(alloc);
    let mut rest = words;
    while let Some((option, behind)) = rest.split_first() {
        if !begins_with_dash(option.as_str()) {
            break;
        }
        let Some((value, others)) = behind.split_first() else {
            return Ok(None);
        };
        let (option, value) = (option.as_str(), value.as_str());
        if !is_setting(option, value) {
            return Ok(None);
        }
        if is_given(&settings, option) {
            return Ok(None);
        }
        settings.push(Setting { option, value })?;
        rest = others;
    }
    if !are_undashed(rest) {
        return Ok(None);
    }
    Ok(Some((settings, rest)))
}
