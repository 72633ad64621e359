// Why a line of a script asks for nothing.
ghost use Rattle.std.specs.Prelude.{◌≡◌, IfOk};
ghost use Rattle.ngctl_script.specs.Refusals.{refusal_words};

use crate::Verb;
use ng_base::{Bytes, NoMemory};
use std::alloc::Global;
use thiserror::Error;

/// Why a line asks for nothing: the first of these, in this order, that is true of its words.
#[derive(Clone, Copy, Debug, PartialEq, Eq, Error)]
pub enum Refusal {
    /// No command has the first word as its name or as a prefix of it.
    #[error("unknown command")]
    Unknown,
    /// The first word is no command's name and a prefix of several.
    #[error("ambiguous command")]
    Ambiguous,
    /// The words behind the name of this command are too few, too many, or no option of it.
    #[error("usage: {}", .0.usage())]
    Usage(Verb),
    /// A word that is to name a hook, a type or a node is no name.
    #[error("bad name")]
    BadName,
    /// A word that is to be an address is none.
    #[error("bad path")]
    BadPath,
    /// A word that is to be a byte is no integer from 0 to 255.
    #[error("bad byte")]
    BadByte,
}

fn usage_words(alloc: Global, verb: Verb) -> Result<Bytes, NoMemory>
    ensures { IfOk result (λ words. words ≡ refusal_words (Refusal.Usage verb)) }
{
    let mut words = Vec::from_slice(alloc, b"usage: ")?;
    words.extend_from_slice(verb.usage().as_bytes())?;
    Ok(Bytes(words))
}

fn text_of(alloc: Global, text: &str) -> Result<Bytes, NoMemory>
    ensures { IfOk result (λ words. words ≡ text.now) }
{
    Ok(Bytes(Vec::from_slice(alloc, text.as_bytes())?))
}

impl Refusal {
    /// The words with which the line is refused.
    ///
    /// # Errors
    /// `NoMemory` for want of memory alone.
    pub fn words(self, alloc: Global) -> Result<Bytes, NoMemory>
        ensures { IfOk result (λ words. words ≡ refusal_words self) }
    {
        match self {
            Refusal::Unknown => text_of(alloc, "unknown command"),
            Refusal::Ambiguous => text_of(alloc, "ambiguous command"),
            Refusal::Usage(verb) => usage_words(alloc, verb),
            Refusal::BadName => text_of(alloc, "bad name"),
            Refusal::BadPath => text_of(alloc, "bad path"),
            Refusal::BadByte => text_of(alloc, "bad byte"),
        }
    }
}
