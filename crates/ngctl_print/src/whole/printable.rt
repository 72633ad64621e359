// Whether an entry can be printed.
ghost use Rattle.std.specs.Prelude.{◌≡◌, ◌≤◌, ◌↔◌, ◌*◌, ◌+◌, IsTrue, length};
ghost use Rattle.std.specs.Option.{option_copied};
ghost use Rattle.ngctl_print.specs.listing.Fields.{number_at};
ghost use Rattle.ngctl_print.specs.listing.Lists.{IsCounted, IsShown};
ghost use Rattle.ngctl_print.specs.whole.Answers.{FitsAnswer};
ghost use Rattle.ngctl_print.specs.whole.Told.{IsPrintable};

use crate::whole::commands::asked_by;
use ng_base::MAX_PACKET_LEN;
use ng_machine::{Command, Told, What};
use ng_message::u32_at;

// The number of 32 bits at `at`.
#[tactic(auto, unfolding(crate::specs::listing::Fields::number_at))]
fn number_at(bytes: &[u8], at: usize) -> u32
    requires { at + 4 ≤ length bytes.now }
    ensures { result ≡ number_at at bytes.now }
{
    u32_at(bytes, at)
}

// Whether the bytes are a count, and as many structures of that size.
fn is_counted(size: u64, bytes: &[u8]) -> bool
    requires { size ≤ 72 }
    ensures { IsTrue result ↔ IsCounted size bytes.now }
{
    if bytes.len() < 4 {
        return false;
    }
    bytes.len() as u64 == 4 + size * u64::from(number_at(bytes, 0))
}

// Whether the bytes are a node, and unless it is brief its links.
fn is_shown(brief: bool, bytes: &[u8]) -> bool
    ensures { IsTrue result ↔ IsShown brief bytes.now }
{
    if brief {
        return bytes.len() == 72;
    }
    if bytes.len() < 72 {
        return false;
    }
    bytes.len() as u64 == 72 + 136 * u64::from(number_at(bytes, 68))
}

fn fits_answer(what: Option<&What>, bytes: &[u8]) -> bool
    ensures { IsTrue result ↔ FitsAnswer (option_copied what.entry) bytes.now }
{
    match what {
        Some(What::List { .. }) => is_counted(72, bytes),
        Some(What::Show { brief, .. }) => is_shown(*brief, bytes),
        Some(What::Types) => is_counted(36, bytes),
        _ => true,
    }
}

/// Whether an entry can be printed: the bytes of an answer to `list`, `show` or `types` are as long as their
/// counts say, and a packet has at most 262,144 bytes. What a run tells can.
pub fn is_printable(told: &Told, commands: &[Command]) -> bool
    ensures { IsTrue result ↔ IsPrintable commands.now told.now }
{
    match told {
        Told::Line { .. } | Told::Refused { .. } | Told::Help { .. } => true,
        Told::Answer { command, bytes, .. } => {
            fits_answer(asked_by(commands, false, *command), &bytes.0)
        },
        Told::Frame { packet, .. } => packet.bytes().len() <= MAX_PACKET_LEN,
    }
}
