// The words of a replay.
ghost use Rattle.std.specs.Prelude.{◌≡◌, ◌∷◌, [], None, IfOk, MatchOption, map, string_bytes};
ghost use Rattle.ng_args.specs.Replay.{replay_words_of, replay_parts, are_replay_words};

use crate::ReplayWords;
use crate::lists::{are_undashed, has_word};
use crate::names::{read_file_name, read_node_name};
use crate::port::PortForm;
use crate::ports::read_ports;
use crate::together::{add_ins, are_ports};
use ng_base::NoMemory;
use ng_decimal::read_decimal;
use std::alloc::Global;

const MAX_WORKERS: u64 = 16;

const MAX_BUDGET: u64 = 10_000_000;

/// The first word, and those behind it.
pub(crate) fn first_word(words: &[String]) -> Option<(&str, &[String])>
    ensures { MatchOption result (map (λ word. string_bytes word) words.now ≡ [])
        (λ parts. map (λ word. string_bytes word) words.now ≡ parts.0.now ∷ map (λ word. string_bytes word) parts.1.now) }
{
    match words.split_first() {
        None => None,
        Some((word, others)) => Some((word.as_str(), others)),
    }
}

fn are_together(alloc: Global, words: &ReplayWords) -> Result<bool, NoMemory>
    ensures { IfOk result (λ right. right ≡ are_replay_words words.now) }
{
    let ports = words.ports.as_slice();
    if !are_ports(&words.own_name, ports) {
        return Ok(false);
    }
    let mut read = Vec::new(alloc);
    read.push(words.script.as_str())?;
    add_ins(&mut read, ports)?;
    Ok(!has_word(&read, words.journal.as_str()))
}

// The five words in front, and the ports.
fn split_words(words: &[String]) -> Option<(&str, &str, &str, &str, &str, &[String])>
    ensures { MatchOption result (replay_parts (map (λ word. string_bytes word) words.now) ≡ None)
        (λ parts. map (λ word. string_bytes word) words.now
        ≡ parts.0.now ∷ parts.1.now ∷ parts.2.now ∷ parts.3.now ∷ parts.4.now ∷ map (λ word. string_bytes word) parts.5.now) }
{
    let (budget, words) = first_word(words)?;
    let (workers, words) = first_word(words)?;
    let (own_name, words) = first_word(words)?;
    let (journal, words) = first_word(words)?;
    let (script, ports) = first_word(words)?;
    Some((budget, workers, own_name, journal, script, ports))
}

fn read_said(alloc: Global, words: &[String]) -> Result<Option<ReplayWords>, NoMemory>
    ensures { IfOk result (λ said. said ≡ replay_parts (map (λ word. string_bytes word) words.now)) }
{
    let Some((budget, workers, own_name, journal, script, ports)) = split_words(words) else {
        return Ok(None);
    };
    let Some(budget) = read_decimal(budget.as_bytes(), 1, MAX_BUDGET) else {
        return Ok(None);
    };
    let Some(workers) = read_decimal(workers.as_bytes(), 0, MAX_WORKERS) else {
        return Ok(None);
    };
    let Some(own_name) = read_node_name(own_name.as_bytes()) else {
        return Ok(None);
    };
    let Some(journal) = read_file_name(alloc, journal)? else {
        return Ok(None);
    };
    let Some(script) = read_file_name(alloc, script)? else {
        return Ok(None);
    };
    let Some(ports) = read_ports(alloc, PortForm::InAlone, ports)? else {
        return Ok(None);
    };
    Ok(Some(ReplayWords {
        budget,
        workers: workers as u32,
        own_name,
        journal,
        script,
        ports,
    }))
}

/// What the words of a replay say, behind `--replay`: `BUDGET WORKERS NAME JOURNAL SCRIPT [PORT=IN ..]`. `None` where they
/// say nothing of this form.
///
/// BUDGET is 1 to 10,000,000 and WORKERS 0 to 16, in decimal digits without a sign and without a zero in front of others.
/// NAME and PORT are names that don't begin with `[`, and all different; there are at most 64 ports. JOURNAL and SCRIPT
/// have a byte at least, and IN may be empty. No word begins with `-`, and JOURNAL equals no other file name.
///
/// # Errors
/// `NoMemory` where memory ran out, and for nothing else.
pub fn read_replay_words(alloc: Global, words: &[String]) -> Result<Option<ReplayWords>, NoMemory>
    ensures { IfOk result (λ said. said ≡ replay_words_of (map (λ word. string_bytes word) words.now)) }
{
    if !are_undashed(words) {
        return Ok(None);
    }
    let Some(said) = read_said(alloc, words)? else {
        return Ok(None);
    };
    if are_together(alloc, &said)? {
        Ok(Some(said))
    } else {
        Ok(None)
    }
}
