// The words of a run.
ghost use Rattle.std.specs.Prelude.{◌≡◌, ◌++◌, ◌∷◌, IfOk, Some, None, codes, map, string_bytes};
ghost use Rattle.std.specs.Option.{option_copied};
ghost use Rattle.ng_decimal.specs.Decimal.{number_from};
ghost use Rattle.ng_args.specs.Names.{node_name};
ghost use Rattle.ng_args.specs.Settings.{settings_of};
ghost use Rattle.ng_args.specs.Run.{unless_given, journal_name, from_files, source_by, said as what_is_said, made_ports, listed, are_words as are_the_words, words_of};
ghost use Rattle.ng_args.specs.Lists.{has_word as has_the_word};
ghost use Rattle.ng_args.specs.Together.{are_files, ins, outs};

use crate::lists::{are_apart, are_different};
use crate::names::{read_file_name, read_node_name};
use crate::options::{Setting, cut_words, value_of};
use crate::port::PortForm;
use crate::ports::read_ports;
use crate::together::{add_ins, add_outs, are_ports};
use crate::{FileName, PortWord, Source, Words};
use ng_base::{Name, NoMemory};
use ng_decimal::read_decimal;
use std::alloc::Global;

const MAX_WORKERS: u64 = 16;

const MAX_BUDGET: u64 = 10_000_000;

const DEFAULT_BUDGET: u64 = 1_000_000;

const MAX_PACKETS: u64 = 100_000;

fn read_workers(value: Option<&str>) -> Option<u32>
    ensures { result ≡ unless_given 0 (number_from 0 MAX_WORKERS) (option_copied value.entry) }
{
    match value {
        None => Some(0),
        Some(word) => match read_decimal(word.as_bytes(), 0, MAX_WORKERS) {
            Some(workers) => Some(workers as u32),
            None => None,
        },
    }
}

fn read_budget(value: Option<&str>) -> Option<u64>
    ensures { result ≡ unless_given DEFAULT_BUDGET (number_from 1 MAX_BUDGET) (option_copied value.entry) }
{
    match value {
        None => Some(DEFAULT_BUDGET),
        Some(word) => read_decimal(word.as_bytes(), 1, MAX_BUDGET),
    }
}

fn read_own_name(value: Option<&str>) -> Option<Name>
    ensures { result ≡ unless_given (codes "ngctl") node_name (option_copied value.entry) }
{
    match value {
        None => read_node_name(b"ngctl"),
        Some(word) => read_node_name(word.as_bytes()),
    }
}

fn read_journal(alloc: Global, value: Option<&str>) -> Result<Option<Option<FileName>>, NoMemory>
    ensures { IfOk result (λ found. found ≡ unless_given None journal_name (option_copied value.entry)) }
{
    let Some(word) = value else {
        return Ok(Some(None));
    };
    match read_file_name(alloc, word)? {
        Some(name) => Ok(Some(Some(name))),
        None => Ok(None),
    }
}

fn read_files(alloc: Global, words: &[String]) -> Result<Option<Source>, NoMemory>
    ensures { IfOk result (λ source. source ≡ from_files (map (λ word. string_bytes word) words.now)) }
{
    let Some((script, words)) = words.split_first() else {
        return Ok(None);
    };
    let Some(script) = read_file_name(alloc, script.as_str())? else {
        return Ok(None);
    };
    let Some(ports) = read_ports(alloc, PortForm::InAndOut, words)? else {
        return Ok(None);
    };
    Ok(Some(Source::FromFiles { script, ports }))
}

fn read_source(
    alloc: Global,
    packets: Option<&str>,
    words: &[String],
) -> Result<Option<Source>, NoMemory>
    ensures { IfOk result (λ source. source ≡ source_by (option_copied packets.entry) (map (λ word. string_bytes word) words.now)) }
{
    let Some(packets) = packets else {
        return read_files(alloc, words);
    };
    let Some(packets) = read_decimal(packets.as_bytes(), 1, MAX_PACKETS) else {
        return Ok(None);
    };
    if words.is_empty() {
        Ok(Some(Source::Made(packets as u32)))
    } else {
        Ok(None)
    }
}

fn read_said(
    alloc: Global,
    settings: &[Setting],
    others: &[String],
) -> Result<Option<Words>, NoMemory>
    ensures { IfOk result (λ words. words ≡ what_is_said (record { settings = settings_of settings.now; others = map (λ word. string_bytes word) others.now })) }
{
    let Some(workers) = read_workers(value_of("-w", settings)) else {
        return Ok(None);
    };
    let Some(budget) = read_budget(value_of("-b", settings)) else {
        return Ok(None);
    };
    let Some(own_name) = read_own_name(value_of("-n", settings)) else {
        return Ok(None);
    };
    let Some(journal) = read_journal(alloc, value_of("-j", settings))? else {
        return Ok(None);
    };
    let Some(source) = read_source(alloc, value_of("-g", settings), others)? else {
        return Ok(None);
    };
    Ok(Some(Words {
        workers,
        budget,
        own_name,
        journal,
        source,
    }))
}

fn is_made_port(name: &Name) -> bool
    ensures { result ≡ has_the_word (map (λ port. port.name) made_ports) name.now }
{
    let name = name.as_str();
    name == "em0" || name == "em1" || name == "em2"
}

fn written_files<'a>(
    alloc: Global,
    ports: &'a [PortWord],
    journal: &'a Option<FileName>,
) -> Result<Vec<&'a str>, NoMemory>
    ensures { IfOk result (λ files. map (λ file. file.now) files.items ≡ outs ports.now ++ listed journal.now) }
{
    let mut files = Vec::new(alloc);
    add_outs(&mut files, ports)?;
    if let Some(journal) = journal {
        files.push(journal.as_str())?;
    }
    Ok(files)
}

fn files_to_read<'a>(
    alloc: Global,
    script: &'a FileName,
    ports: &'a [PortWord],
) -> Result<Vec<&'a str>, NoMemory>
    ensures { IfOk result (λ files. map (λ file. file.now) files.items ≡ script.now ∷ ins ports.now) }
{
    let mut files = Vec::new(alloc);
    files.push(script.as_str())?;
    add_ins(&mut files, ports)?;
    Ok(files)
}

fn are_files_apart(
    alloc: Global,
    script: &FileName,
    ports: &[PortWord],
    journal: &Option<FileName>,
) -> Result<bool, NoMemory>
    ensures { IfOk result (λ right. right ≡ are_files (outs ports.now ++ listed journal.now) (script.now ∷ ins ports.now)) }
{
    let written = written_files(alloc, ports, journal)?;
    if !are_different(&written) {
        return Ok(false);
    }
    let read = files_to_read(alloc, script, ports)?;
    Ok(are_apart(&written, &read))
}

fn are_together(alloc: Global, words: &Words) -> Result<bool, NoMemory>
    ensures { IfOk result (λ right. right ≡ are_the_words words.now) }
{
    match &words.source {
        Source::Made(_) => Ok(!is_made_port(&words.own_name)),
        Source::FromFiles { script, ports } => {
            let ports = ports.as_slice();
            if !are_ports(&words.own_name, ports) {
                return Ok(false);
            }
            are_files_apart(alloc, script, ports, &words.journal)
        }
    }
}

/// What the words of a run say: `[-w WORKERS] [-b BUDGET] [-n NAME] [-j JOURNAL] SCRIPT [PORT=IN,OUT ..]`, or `-g N` in
/// place of SCRIPT and the ports. `None` where they say nothing of this form.
///
/// Options stand in front, in any order, each at most once. WORKERS is 0 to 16, BUDGET 1 to 10,000,000 and N 1 to
/// 100,000, in decimal digits without a sign and without a zero in front of others. NAME and PORT are names that don't
/// begin with `[`; they are all different, and with `-g` NAME is none of em0, em1 and em2. There are at most 64 ports.
/// SCRIPT and JOURNAL have a byte at least; IN and OUT may be empty. No other word begins with `-`, and an OUT or the
/// JOURNAL equals no other file name of the words.
///
/// # Errors
/// `NoMemory` where memory ran out, and for nothing else.
pub fn read_words(alloc: Global, words: &[String]) -> Result<Option<Words>, NoMemory>
    ensures { IfOk result (λ said. said ≡ words_of (map (λ word. string_bytes word) words.now)) }
{
    let Some((settings, others)) = cut_words(alloc, words)? else {
        return Ok(None);
    };
    let Some(said) = read_said(alloc, &settings, others)? else {
        return Ok(None);
    };
    if are_together(alloc, &said)? {
        Ok(Some(said))
    } else {
        Ok(None)
    }
}
