// ng_etf(4): sorts frames by their ethertypes.
ghost use Rattle.std.specs.Prelude.{◌≡◌, ◌≤◌, length, OnOk};
ghost use Rattle.std.specs.List.{filter};
ghost use Rattle.std.specs.Option.{option_copied};
ghost use Rattle.ng_machine.specs.kinds.Etf.{etf_filter_of, ethertype_of, goes_back, goes_down, goes_up, is_own, is_short, sorts, upward};
ghost use Rattle.ng_machine.specs.Outcome.{counts_only, nothing, sends_by};

use crate::lookup::{Hooks, Table, downstream, is_named, nomatch, send, send_by};
use byteorder::{BigEndian, ByteOrder};
use ng_base::{Errno, Name, NoMemory, Packet};
use ng_frame::MIN_FRAME_LEN;
use ng_machine::{Door, EtfWay, Outcome};
use std::alloc::Global;

/// The number of the counter `inFrames`.
const IN_FRAMES: u64 = 0;

/// The number of the counter `outFrames`.
const OUT_FRAMES: u64 = 1;

/// What an etf node works by: its hooks and its filters.
#[derive(Drop)]
pub struct EtfPlan {
    pub hooks: Hooks,
    pub filters: Table<EtfWay>,
}

/// Whether a packet is too short to be a frame.
fn is_short(frame: &[u8]) -> bool
    ensures { result ≡ is_short frame.now }
{
    frame.len() < MIN_FRAME_LEN
}

/// The ethertype of a frame.
fn ethertype_of(frame: &[u8]) -> u16
    requires { 14 ≤ length frame.now }
    ensures { result ≡ ethertype_of frame.now }
{
    BigEndian::read_u16(&frame[12..])
}

/// Whether a filter is there and is of this hook.
fn is_own(hook: &Name, filter: Option<&EtfWay>) -> bool
    ensures { result ≡ is_own hook.now (option_copied filter.entry) }
{
    match filter {
        None => false,
        Some(filter) => filter.hook == *hook,
    }
}

impl EtfPlan {
    /// A packet goes out of `downstream`, where that is there, and is counted.
    fn go_down(&self, hook: &Name, frame: &Packet, outcome: &mut Outcome) -> Result<(), NoMemory>
        requires { outcome.old ≡ nothing }
        ensures { OnOk result (outcome.new ≡ goes_down self.now.hooks hook.now frame.now) }
    {
        let out = downstream();
        if !self.hooks.has(&out) {
            return Ok(());
        }
        send(outcome, &out, frame)?;
        outcome.counts.push((*hook, OUT_FRAMES, 1))
    }

    /// The filter of a frame's ethertype.
    fn filter_for(&self, frame: &[u8]) -> Option<&EtfWay>
        requires { 14 ≤ length frame.now }
        ensures { option_copied result ≡ etf_filter_of (ethertype_of frame.now) self.now.filters }
    {
        self.filters.find(u64::from(ethertype_of(frame)))
    }

    /// A frame out of its filter's hook, and out of `nomatch` where there is none; what was counted before stays counted.
    fn send_up(
        &self,
        filter: Option<&EtfWay>,
        frame: &Packet,
        outcome: &mut Outcome,
    ) -> Result<(), NoMemory>
        requires { outcome.old ≡ counts_only outcome.old.counts }
        ensures { OnOk result (outcome.new
            ≡ record (sends_by self.now.hooks (upward (option_copied filter.entry)) frame.now) { counts = outcome.old.counts }) }
    {
        match filter {
            None => send_by(outcome, &self.hooks, &nomatch(), frame),
            Some(filter) => send_by(outcome, &self.hooks, &filter.hook, frame),
        }
    }

    /// A packet that comes by `downstream`; what was counted before stays counted.
    fn go_up(&self, frame: &Packet, outcome: &mut Outcome) -> Result<(), NoMemory>
        requires { outcome.old ≡ counts_only outcome.old.counts }
        ensures { OnOk result (outcome.new
            ≡ record (goes_up self.now.hooks self.now.filters frame.now) { counts = outcome.old.counts }) }
    {
        if is_short(frame.bytes()) {
            outcome.errno = Errno::INVAL;
            return Ok(());
        }
        self.send_up(self.filter_for(frame.bytes()), frame, outcome)
    }

    /// A packet that comes by a hook beside `downstream` and `nomatch`.
    fn go_back(&self, hook: &Name, frame: &Packet, outcome: &mut Outcome) -> Result<(), NoMemory>
        requires { outcome.old ≡ nothing }
        ensures { OnOk result (outcome.new ≡ goes_back self.now.hooks self.now.filters hook.now frame.now) }
    {
        if is_short(frame.bytes()) {
            outcome.errno = Errno::INVAL;
            return Ok(());
        }
        if is_own(hook, self.filter_for(frame.bytes())) {
            return self.go_down(hook, frame, outcome);
        }
        outcome.errno = Errno::PERM;
        Ok(())
    }

    /// A packet that comes by a hook.
    fn work_by(&self, hook: &Name, frame: &Packet, outcome: &mut Outcome) -> Result<(), NoMemory>
        requires { outcome.old ≡ nothing }
        ensures { OnOk result (outcome.new
            ≡ sorts self.now.hooks self.now.filters (Door.Hook hook.now) frame.now) }
    {
        if is_named(hook, b"downstream") {
            outcome.counts.push((*hook, IN_FRAMES, 1))?;
            self.go_up(frame, outcome)
        } else if is_named(hook, b"nomatch") {
            self.go_down(hook, frame, outcome)
        } else {
            self.go_back(hook, frame, outcome)
        }
    }

    /// What becomes of a packet.
    pub fn work(&self, door: &Door, frame: &Packet, outcome: &mut Outcome) -> Result<(), NoMemory>
        requires { outcome.old ≡ nothing }
        ensures { OnOk result (outcome.new ≡ sorts self.now.hooks self.now.filters door.now frame.now) }
    {
        match door {
            Door::Hook(hook) => self.work_by(hook, frame, outcome),
            Door::Wire => Ok(()),
        }
    }
}
