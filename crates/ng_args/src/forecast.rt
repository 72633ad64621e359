// The words of a forecast.
ghost use Rattle.std.specs.Prelude.{◌≡◌, ◌∷◌, None, IfOk, MatchOption, map, string_bytes};
ghost use Rattle.ng_args.specs.Forecast.{forecast_words_of, forecast_parts};

use crate::ForecastWords;
use crate::lists::are_undashed;
use crate::names::{read_file_name, read_node_name};
use crate::port::PortForm;
use crate::ports::read_ports;
use crate::replay::first_word;
use crate::together::are_ports;
use ng_base::NoMemory;
use ng_decimal::read_decimal;
use std::alloc::Global;

const MAX_HOPS: u64 = 64;

// The three words in front, and the ports.
fn split_words(words: &[String]) -> Option<(&str, &str, &str, &[String])>
    ensures { MatchOption result (forecast_parts (map (λ word. string_bytes word) words.now) ≡ None)
        (λ parts. map (λ word. string_bytes word) words.now ≡ parts.0.now ∷ parts.1.now ∷ parts.2.now ∷ map (λ word. string_bytes word) parts.3.now) }
{
    let (hops, words) = first_word(words)?;
    let (own_name, words) = first_word(words)?;
    let (script, ports) = first_word(words)?;
    Some((hops, own_name, script, ports))
}

fn read_said(alloc: Global, words: &[String]) -> Result<Option<ForecastWords>, NoMemory>
    ensures { IfOk result (λ said. said ≡ forecast_parts (map (λ word. string_bytes word) words.now)) }
{
    let Some((hops, own_name, script, ports)) = split_words(words) else {
        return Ok(None);
    };
    let Some(hops) = read_decimal(hops.as_bytes(), 1, MAX_HOPS) else {
        return Ok(None);
    };
    let Some(own_name) = read_node_name(own_name.as_bytes()) else {
        return Ok(None);
    };
    let Some(script) = read_file_name(alloc, script)? else {
        return Ok(None);
    };
    let Some(ports) = read_ports(alloc, PortForm::InAlone, ports)? else {
        return Ok(None);
    };
    Ok(Some(ForecastWords {
        hops: hops as u32,
        own_name,
        script,
        ports,
    }))
}

/// What the words of a forecast say, behind `--forecast`: `HOPS NAME SCRIPT [PORT=IN ..]`. `None` where they say nothing
/// of this form.
///
/// HOPS is 1 to 64, in decimal digits without a sign and without a zero in front of others. NAME and PORT are names that
/// don't begin with `[`, and all different; there are at most 64 ports. SCRIPT has a byte at least, and IN may be empty.
/// No word begins with `-`.
///
/// # Errors
/// `NoMemory` where memory ran out, and for nothing else.
pub fn read_forecast_words(
    alloc: Global,
    words: &[String],
) -> Result<Option<ForecastWords>, NoMemory>
    ensures { IfOk result (λ said. said ≡ forecast_words_of (map (λ word. string_bytes word) words.now)) }
{
    if !are_undashed(words) {
        return Ok(None);
    }
    let Some(said) = read_said(alloc, words)? else {
        return Ok(None);
    };
    if are_ports(&said.own_name, said.ports.as_slice()) {
        Ok(Some(said))
    } else {
        Ok(None)
    }
}
