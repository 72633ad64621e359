// What a call has read.
ghost use Rattle.std.specs.Prelude.{◌≡◌, map, IfOk};

use ng_base::NoMemory;
use ng_machine::Command;
use ng_pcap::Capture;
use ngctl_script::Script;
use std::alloc::Global;

/// A script, as it is fed and as it is printed.
#[derive(Drop)]
pub struct ReadScript {
    /// The commands with their times.
    pub script: Script,
    /// The commands alone, in order.
    pub commands: Vec<Command>,
}

/// A script, and a capture for each port, in order. A port that receives nothing has one without packets.
#[derive(Drop)]
pub struct ReadIn {
    /// The script.
    pub script: ReadScript,
    /// The captures, one for each port.
    pub captures: Vec<Capture>,
}

/// The places where captures were cut, in bytes, in order; `None` for those that were whole.
///
/// # Errors
/// `NoMemory` where memory ran out, and for nothing else.
pub fn cuts_of(alloc: Global, captures: &[Capture]) -> Result<Vec<Option<u64>>, NoMemory>
    ensures { IfOk result (λ cuts. cuts.items ≡ map (λ capture. capture.cut) captures.now) }
{
    let mut cuts = Vec::new(alloc);
    for capture in captures {
        cuts.push(capture.cut)?;
    }
    Ok(cuts)
}
