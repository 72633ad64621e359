// Names among the words of a command line.
ghost use Rattle.std.specs.Prelude.{◌≡◌, IfOk};
ghost use Rattle.ng_args.specs.Names.{is_dashed, node_name as the_node_name, file_name as the_file_name};

use crate::FileName;
use ng_base::{Name, NoMemory};
use std::alloc::Global;

/// Whether the word begins with a dash.
pub(crate) fn begins_with_dash(word: &str) -> bool
    ensures { result ≡ is_dashed word.now }
{
    match word.as_bytes() {
        [b'-', ..] => true,
        _ => false,
    }
}

/// The name of a node or a port, which doesn't begin with `[`.
pub(crate) fn read_node_name(word: &[u8]) -> Option<Name>
    ensures { result ≡ the_node_name word.now }
{
    match word {
        [b'[', ..] => None,
        _ => Name::read(word).ok(),
    }
}

/// The name of a file, which has a byte at least.
///
/// # Errors
/// `NoMemory` where memory ran out, and for nothing else.
pub(crate) fn read_file_name(alloc: Global, word: &str) -> Result<Option<FileName>, NoMemory>
    ensures { IfOk result (λ found. found ≡ the_file_name word.now) }
{
    if word.is_empty() {
        return Ok(None);
    }
    Ok(Some(FileName(String::from_str(alloc, word)?)))
}
