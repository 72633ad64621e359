// macset: parts frames by whether their source is in a set of addresses. The type is this project's own.
ghost use Rattle.std.specs.Prelude.{◌≡◌, OnOk};
ghost use Rattle.ng_machine.specs.kinds.Macset.{goes_by, has_address, picks, sifts};
ghost use Rattle.ng_machine.specs.Outcome.{nothing};

use crate::lookup::{
    Hooks, Table, address_number, all_hook, is_named, known_hook, other_hook, same_address, send,
    send_by, source_of,
};
use ng_base::{Errno, Name, NoMemory, Packet};
use ng_frame::MIN_FRAME_LEN;
use ng_machine::{Door, Outcome};
use std::alloc::Global;

/// The number of the counter `knownFrames`.
const KNOWN_FRAMES: u64 = 0;

/// The number of the counter `otherFrames`.
const OTHER_FRAMES: u64 = 1;

/// What a macset works by: its hooks and its addresses.
#[derive(Drop)]
pub struct MacsetPlan {
    pub hooks: Hooks,
    pub set: Table<[u8; 6]>,
}

/// Whether an address is in the set.
fn has_address(set: &Table<[u8; 6]>, address: &[u8; 6]) -> bool
    ensures { result ≡ has_address set.now address.now }
{
    match set.find(address_number(address)) {
        Some(other) => {
            same_address(other, address);
            true
        }
        None => false,
    }
}

impl MacsetPlan {
    /// A frame goes out of a hook, where that is there, and is counted.
    fn go_by(
        &self,
        out: &Name,
        number: u64,
        hook: &Name,
        frame: &Packet,
        outcome: &mut Outcome,
    ) -> Result<(), NoMemory>
        requires { outcome.old ≡ nothing }
        ensures { OnOk result (outcome.new ≡ goes_by self.now.hooks out.now number hook.now frame.now) }
    {
        if !self.hooks.has(out) {
            return Ok(());
        }
        send(outcome, out, frame)?;
        outcome.counts.push((*hook, number, 1))
    }

    /// A packet that comes by `all`.
    fn sift(&self, hook: &Name, frame: &Packet, outcome: &mut Outcome) -> Result<(), NoMemory>
        requires { outcome.old ≡ nothing }
        ensures { OnOk result (outcome.new ≡ sifts self.now.hooks self.now.set hook.now frame.now) }
    {
        if frame.bytes().len() < MIN_FRAME_LEN {
            outcome.errno = Errno::INVAL;
            return Ok(());
        }
        if has_address(&self.set, &source_of(frame.bytes())) {
            self.go_by(&known_hook(), KNOWN_FRAMES, hook, frame, outcome)
        } else {
            self.go_by(&other_hook(), OTHER_FRAMES, hook, frame, outcome)
        }
    }

    /// What becomes of a packet.
    pub fn work(&self, door: &Door, frame: &Packet, outcome: &mut Outcome) -> Result<(), NoMemory>
        requires { outcome.old ≡ nothing }
        ensures { OnOk result (outcome.new ≡ picks self.now.hooks self.now.set door.now frame.now) }
    {
        match door {
            Door::Hook(hook) if is_named(hook, b"all") => self.sift(hook, frame, outcome),
            Door::Hook(_) => send_by(outcome, &self.hooks, &all_hook(), frame),
            Door::Wire => Ok(()),
        }
    }
}
