// Outcomes that many types have.
ghost use Rattle.std.specs.Prelude.{◌≡◌, ◌∷◌, ◌++◌, [], if◌then◌else◌, OnOk, Some};
ghost use Rattle.ng_base.specs.Names.{has_name};
ghost use Rattle.ng_machine.specs.Outcome.{fails, nothing};

use crate::lookup::hooks::Hooks;
use ng_base::{Bytes, Errno, Name, NoMemory, Packet, Sequence};
use ng_machine::{Exit, Outcome};
use std::alloc::Global;

/// Nothing comes of a body. It takes no memory.
pub fn nothing(alloc: Global) -> Outcome
    ensures { result ≡ nothing }
{
    Outcome {
        sends: Sequence::new(alloc),
        leaves: Sequence::new(alloc),
        answer: None,
        counts: Sequence::new(alloc),
        learn: None,
        errno: Errno::NONE,
    }
}

/// A body is refused with this error. It takes no memory.
pub fn fails(alloc: Global, errno: Errno) -> Outcome
    ensures { result ≡ fails errno }
{
    Outcome {
        errno,
        ..nothing(alloc)
    }
}

/// Bytes are answered, and nothing else. It takes no memory.
pub fn answers(alloc: Global, bytes: Bytes) -> Outcome
    ensures { result ≡ record nothing { answer = Some bytes } }
{
    Outcome {
        answer: Some(bytes),
        ..nothing(alloc)
    }
}

/// A packet goes out of a hook, which is there, behind what an outcome sends already. The packet is shared and not copied.
///
/// # Errors
/// `NoMemory` where memory ran out, and for nothing else.
pub fn send(outcome: &mut Outcome, hook: &Name, packet: &Packet) -> Result<(), NoMemory>
    ensures { OnOk result (outcome.new ≡ record outcome.old { sends = outcome.old.sends ++ (hook.now, packet.now) ∷ [] }) }
{
    outcome.sends.push((*hook, packet.again()?))
}

/// A packet goes out of a hook as `send` does it, where the node has the hook.
///
/// # Errors
/// `NoMemory` where memory ran out, and for nothing else.
pub fn send_by(
    outcome: &mut Outcome,
    hooks: &Hooks,
    hook: &Name,
    packet: &Packet,
) -> Result<(), NoMemory>
    ensures { OnOk result (outcome.new
        ≡ (if has_name hooks.now hook.now
        then record outcome.old { sends = outcome.old.sends ++ (hook.now, packet.now) ∷ [] }
        else outcome.old)) }
{
    if hooks.has(hook) {
        send(outcome, hook, packet)
    } else {
        Ok(())
    }
}

/// A packet leaves the graph, behind what leaves it already in an outcome. The packet is shared and not copied.
///
/// # Errors
/// `NoMemory` where memory ran out, and for nothing else.
pub fn leave(outcome: &mut Outcome, exit: Exit, packet: &Packet) -> Result<(), NoMemory>
    ensures { OnOk result (outcome.new ≡ record outcome.old { leaves = outcome.old.leaves ++ (exit, packet.now) ∷ [] }) }
{
    outcome.leaves.push((exit, packet.again()?))
}
