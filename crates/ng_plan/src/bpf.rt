// ng_bpf(4): a program decides where a packet goes.
ghost use Rattle.std.specs.Prelude.{◌≡◌, OnOk};
ghost use Rattle.ng_machine.specs.kinds.Bpf.{by_match, filters, sends_and_counts, to_target};
ghost use Rattle.ng_machine.specs.Outcome.{counts_only, nothing};

use crate::lookup::{NameTable, count_packet, send};
use ng_base::{Name, NoMemory, Packet};
use ng_bpf_vm::run;
use ng_machine::{BpfWay, Door, Outcome};
use std::alloc::Global;

/// The numbers of the counters `recvFrames`, `recvOctets`, `recvMatchFrames`, `recvMatchOctets`, `xmitFrames` and
/// `xmitOctets`.
const RECV_FRAMES: u64 = 0;

const RECV_OCTETS: u64 = 1;

const MATCH_FRAMES: u64 = 2;

const MATCH_OCTETS: u64 = 3;

const XMIT_FRAMES: u64 = 4;

const XMIT_OCTETS: u64 = 5;

/// What a bpf node works by: each of its hooks with its program and its targets.
#[derive(Drop)]
pub struct BpfPlan {
    pub ways: NameTable<BpfWay>,
}

/// A packet out of a hook, which is counted there beside what was counted before.
fn send_and_count(hook: &Name, packet: &Packet, outcome: &mut Outcome) -> Result<(), NoMemory>
    requires { outcome.old ≡ counts_only outcome.old.counts }
    ensures { OnOk result (outcome.new ≡ sends_and_counts hook.now packet.now outcome.old.counts) }
{
    send(outcome, hook, packet)?;
    let len = packet.bytes().len() as u64;
    count_packet(&mut outcome.counts, XMIT_FRAMES, XMIT_OCTETS, hook, len)
}

impl BpfPlan {
    /// Out of a target, where it is there; what was counted before it stays counted.
    fn send_to_target(
        &self,
        target: Option<Name>,
        packet: &Packet,
        outcome: &mut Outcome,
    ) -> Result<(), NoMemory>
        requires { outcome.old ≡ counts_only outcome.old.counts }
        ensures { OnOk result (outcome.new ≡ to_target self.now.ways target packet.now outcome.old.counts) }
    {
        match target {
            None => Ok(()),
            Some(hook) => {
                if self.ways.has(&hook) {
                    send_and_count(&hook, packet, outcome)
                } else {
                    Ok(())
                }
            }
        }
    }

    /// A packet by a hook, by what stands there.
    fn filter_by(
        &self,
        way: &BpfWay,
        hook: &Name,
        packet: &Packet,
        outcome: &mut Outcome,
    ) -> Result<(), NoMemory>
        requires { outcome.old ≡ nothing }
        ensures { OnOk result (outcome.new ≡ by_match self.now.ways way.now hook.now packet.now) }
    {
        let len = packet.bytes().len() as u64;
        count_packet(&mut outcome.counts, RECV_FRAMES, RECV_OCTETS, hook, len)?;
        if run(&way.program, packet.bytes()) == 0 {
            return self.send_to_target(way.if_not_match, packet, outcome);
        }
        count_packet(&mut outcome.counts, MATCH_FRAMES, MATCH_OCTETS, hook, len)?;
        self.send_to_target(way.if_match, packet, outcome)
    }

    /// A packet that comes by a hook.
    fn work_by(&self, hook: &Name, packet: &Packet, outcome: &mut Outcome) -> Result<(), NoMemory>
        requires { outcome.old ≡ nothing }
        ensures { OnOk result (outcome.new ≡ filters self.now.ways (Door.Hook hook.now) packet.now) }
    {
        match self.ways.find(hook) {
            None => Ok(()),
            Some(way) => self.filter_by(way, hook, packet, outcome),
        }
    }

    /// What becomes of a packet.
    pub fn work(&self, door: &Door, packet: &Packet, outcome: &mut Outcome) -> Result<(), NoMemory>
        requires { outcome.old ≡ nothing }
        ensures { OnOk result (outcome.new ≡ filters self.now.ways door.now packet.now) }
    {
        match door {
            Door::Hook(hook) => self.work_by(hook, packet, outcome),
            Door::Wire => Ok(()),
        }
    }
}
