// The words of a trace.
ghost use Rattle.std.specs.Prelude.{◌≡◌, ◌++◌, ◌∷◌, [], Some, map, string_bytes, IfOk, OnOk};
ghost use Rattle.ng_args.specs.Names.{is_dashed};
ghost use Rattle.ng_call.specs.Called.{texts};
ghost use Rattle.ng_trace_call.specs.Words.{as_run, if_said, trace_words_of, with_comma};

use ng_args::{FileName, ReplayWords, Source, Words, read_words};
use ng_base::NoMemory;
use std::alloc::Global;

/// The words of a trace.
#[derive(Drop)]
pub enum TraceWords {
    /// The journal of the run is followed.
    Follow(ReplayWords),
    /// The run of no workers is made. The name of the journal has no bytes.
    Plain(ReplayWords),
}

fn begins_with_dash(word: &str) -> bool
    ensures { result ≡ is_dashed word.now }
{
    match word.as_bytes() {
        [b'-', ..] => true,
        _ => false,
    }
}

// Adds a copy of a word.
fn put_word(alloc: Global, word: &str, made: &mut Vec<String>) -> Result<(), NoMemory>
    ensures { OnOk result (texts made.new.items ≡ texts made.old.items ++ word.now ∷ []) }
{
    made.push(String::from_str(alloc, word)?)?;
    Ok(())
}

// Adds the word of a port with a comma behind it, as a run has it that writes nothing for the port.
fn put_port(alloc: Global, word: &str, made: &mut Vec<String>) -> Result<(), NoMemory>
    ensures { OnOk result (texts made.new.items ≡ texts made.old.items ++ with_comma word.now ∷ []) }
{
    let mut port = String::from_str(alloc, word)?;
    port.push_str(",")?;
    made.push(port)?;
    Ok(())
}

fn put_ports(alloc: Global, words: &[String], made: &mut Vec<String>) -> Result<(), NoMemory>
    ensures { OnOk result (texts made.new.items ≡ texts made.old.items ++ map with_comma (texts words.now)) }
{
    for word in words {
        put_port(alloc, word.as_str(), made)?;
    }
    Ok(())
}

// The words that a run has for these.
fn as_run(alloc: Global, words: &[String]) -> Result<Vec<String>, NoMemory>
    ensures { IfOk result (λ made. texts made.items ≡ as_run (texts words.now)) }
{
    let mut made = Vec::new(alloc);
    let mut rest = words;
    while let Some((word, behind)) = rest.split_first() {
        put_word(alloc, word.as_str(), &mut made)?;
        let Some((next, others)) = behind.split_first() else {
            return Ok(made);
        };
        if !begins_with_dash(word.as_str()) {
            put_ports(alloc, behind, &mut made)?;
            return Ok(made);
        }
        put_word(alloc, next.as_str(), &mut made)?;
        rest = others;
    }
    Ok(made)
}

// What the words of a run say to a trace.
fn said_of(alloc: Global, words: Words) -> Option<TraceWords>
    ensures { result ≡ if_said (Some words) }
{
    let Words {
        workers,
        budget,
        own_name,
        journal,
        source,
    } = words;
    match journal {
        Some(journal) => match source {
            Source::FromFiles { script, ports } => Some(TraceWords::Follow(ReplayWords {
                budget,
                workers,
                own_name,
                journal,
                script,
                ports,
            })),
            Source::Made(_) => None,
        },
        None => match source {
            Source::FromFiles { script, ports } => {
                if workers != 0 {
                    return None;
                }
                Some(TraceWords::Plain(ReplayWords {
                    budget,
                    workers,
                    own_name,
                    journal: FileName(String::new(alloc)),
                    script,
                    ports,
                }))
            }
            Source::Made(_) => None,
        },
    }
}

/// What the words of a trace say: `[-b BUDGET] [-n NAME] [-j JOURNAL [-w WORKERS]] SCRIPT [PORT=IN ..]`. `None` where they say
/// nothing of this form.
///
/// They are read as those of a run (ng_args), with a comma behind each port. So options stand in front, each at most once, and
/// without `-w` the run had no workers, and without `-j` it may have none; IN has no comma, and the JOURNAL equals no other file name.
///
/// # Errors
/// `NoMemory` where memory ran out, and for nothing else.
pub fn read_trace_words(alloc: Global, words: &[String]) -> Result<Option<TraceWords>, NoMemory>
    ensures { IfOk result (λ said. said ≡ trace_words_of (texts words.now)) }
{
    let words = as_run(alloc, words)?;
    match read_words(alloc, &words)? {
        Some(said) => Ok(said_of(alloc, said)),
        None => Ok(None),
    }
}
