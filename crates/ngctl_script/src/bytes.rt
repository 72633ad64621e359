// The command that writes bytes.
ghost use Rattle.std.specs.Prelude.{◌≡◌, ◌∷◌, [], List, ℕ, IfOk, MatchOption};
ghost use Rattle.std.specs.Option.{option_map};
ghost use Rattle.ngctl_script.specs.Forms.{bytes_in, write_words};
ghost use Rattle.ngctl_script.specs.Refusals.{Asks};
ghost use Rattle.ngctl_script.specs.Words.{words_in};

use crate::forms::{Form, read_name};
use crate::marks::read_byte;
use crate::words::next_word;
use crate::{Refusal, Verb};
use ng_base::{Bytes, NoMemory, Stop};
use ng_machine::What;
use std::alloc::Global;

/// The bytes that the words say, or `None` where one says none.
fn read_bytes(alloc: Global, text: &[u8]) -> Result<Option<Vec<u8>>, NoMemory>
    ensures { IfOk result (λ found. bytes_in (words_in text.now) ≡ option_map (λ bytes. bytes.items) found) }
{
    let mut bytes = Vec::new(alloc);
    let mut rest = text;
    while let Some((word, behind)) = next_word(rest) {
        let Some(byte) = read_byte(word) else {
            return Ok(None);
        };
        bytes.push(byte)?;
        rest = behind;
    }
    Ok(Some(bytes))
}

/// `write hook byte ..`: one byte or more.
pub(crate) fn write(alloc: Global, rest: &[u8]) -> Form
    ensures { Asks result (write_words (words_in rest.now)) }
{
    let Some((hook, rest)) = next_word(rest) else {
        return Err(Stop::Fault(Refusal::Usage(Verb::Write)));
    };
    if next_word(rest).is_none() {
        return Err(Stop::Fault(Refusal::Usage(Verb::Write)));
    }
    let hook = read_name(hook)?;
    let Some(bytes) = read_bytes(alloc, rest)? else {
        return Err(Stop::Fault(Refusal::BadByte));
    };
    Ok(What::Write {
        hook,
        bytes: Bytes(bytes),
    })
}
