// ng_vlan(4): parts the frames of VLANs by their tags, and tags them on the way back.
ghost use Rattle.std.specs.Prelude.{◌≡◌, OnOk, Some};
ghost use Rattle.std.specs.Int.{to_be_bytes, w16};
ghost use Rattle.std.specs.Option.{option_copied};
ghost use Rattle.ng_frame.specs.Frame.{IsTagged, tag_of};
ghost use Rattle.ng_machine.specs.Outcome.{nothing};
ghost use Rattle.ng_machine.specs.kinds.Vlan.{by_tag, control_of, filter_of_hook, into_filter, out_of_filter, tags};

use crate::lookup::{Filters, Hooks, downstream, is_named, nomatch, send_by};
use ng_base::{Errno, Name, NoMemory, Packet};
use ng_frame::{MAX_UNTAGGED_LEN, MIN_FRAME_LEN, untag, with_tag, without_tag};
use ng_machine::{Door, Outcome, VlanWay};
use std::alloc::Global;

/// What a vlan node works by: its hooks, the tag protocol identifier of its tags, and its filters.
#[derive(Drop)]
pub struct VlanPlan {
    pub hooks: Hooks,
    pub kind: u16,
    pub filters: Filters,
}

/// The tag control information of a filter's tags, in 16 bits.
fn control_of(filter: &VlanWay) -> u16
    ensures { to_be_bytes w16 result ≡ to_be_bytes w16 (control_of filter.now) }
{
    let VlanWay { vlan, pcp, cfi, .. } = *filter;
    let control = u32::from(pcp) * 8_192 + u32::from(cfi) * 4_096 + u32::from(vlan);
    (control % 65_536) as u16
}

impl VlanPlan {
    /// A tagged frame out of its filter's hook without the tag, and out of `nomatch` where there is none.
    fn send_untagged(
        &self,
        alloc: Global,
        filter: Option<&VlanWay>,
        frame: &Packet,
        outcome: &mut Outcome,
    ) -> Result<(), NoMemory>
        requires tagged { IsTagged self.now.kind frame.now }
        requires blank { outcome.old ≡ nothing }
        ensures { OnOk result (outcome.new ≡ out_of_filter self.now.hooks (option_copied filter.entry) frame.now) }
    {
        match filter {
            None => send_by(outcome, &self.hooks, &nomatch(), frame),
            Some(filter) => {
                let plain = without_tag(alloc, frame.bytes(), self.kind).map_err(|_| NoMemory)?;
                let untagged = Packet::new(alloc, &plain)?;
                send_by(outcome, &self.hooks, &filter.hook, &untagged)
            }
        }
    }

    /// A packet that comes by `downstream`.
    fn part_by_tag(
        &self,
        alloc: Global,
        frame: &Packet,
        outcome: &mut Outcome,
    ) -> Result<(), NoMemory>
        requires { outcome.old ≡ nothing }
        ensures { OnOk result (outcome.new
            ≡ by_tag self.now.hooks self.now.filters (tag_of self.now.kind frame.now) frame.now) }
    {
        match untag(frame.bytes(), self.kind) {
            None => send_by(outcome, &self.hooks, &nomatch(), frame),
            Some((number, _)) => {
                self.send_untagged(alloc, self.filters.of_number(number), frame, outcome)
            }
        }
    }

    /// A frame out of `downstream` with a filter's tag.
    fn send_tagged(
        &self,
        alloc: Global,
        filter: &VlanWay,
        frame: &Packet,
        outcome: &mut Outcome,
    ) -> Result<(), NoMemory>
        requires { outcome.old ≡ nothing }
        ensures { OnOk result (outcome.new ≡ into_filter self.now.hooks self.now.kind (Some filter.now) frame.now) }
    {
        let len = frame.bytes().len();
        if len < MIN_FRAME_LEN {
            outcome.errno = Errno::INVAL;
            return Ok(());
        }
        if len > MAX_UNTAGGED_LEN {
            outcome.errno = Errno::MSGSIZE;
            return Ok(());
        }
        let control = control_of(filter);
        let bytes = with_tag(alloc, frame.bytes(), self.kind, control).map_err(|_| NoMemory)?;
        let tagged = Packet::new(alloc, &bytes)?;
        send_by(outcome, &self.hooks, &downstream(), &tagged)
    }

    /// A packet that comes by a filter's hook, or by one that has none.
    fn tag_by(
        &self,
        alloc: Global,
        hook: &Name,
        frame: &Packet,
        outcome: &mut Outcome,
    ) -> Result<(), NoMemory>
        requires { outcome.old ≡ nothing }
        ensures { OnOk result (outcome.new
            ≡ into_filter self.now.hooks self.now.kind (filter_of_hook hook.now self.now.filters) frame.now) }
    {
        match self.filters.of_hook(hook) {
            None => {
                outcome.errno = Errno::NOTCONN;
                Ok(())
            }
            Some(filter) => self.send_tagged(alloc, filter, frame, outcome),
        }
    }

    /// A packet that comes by a hook.
    fn work_by(
        &self,
        alloc: Global,
        hook: &Name,
        frame: &Packet,
        outcome: &mut Outcome,
    ) -> Result<(), NoMemory>
        requires { outcome.old ≡ nothing }
        ensures { OnOk result (outcome.new
            ≡ tags self.now.hooks self.now.kind self.now.filters (Door.Hook hook.now) frame.now) }
    {
        if is_named(hook, b"downstream") {
            self.part_by_tag(alloc, frame, outcome)
        } else if is_named(hook, b"nomatch") {
            send_by(outcome, &self.hooks, &downstream(), frame)
        } else {
            self.tag_by(alloc, hook, frame, outcome)
        }
    }

    /// What becomes of a packet.
    pub(crate) fn work(
        &self,
        alloc: Global,
        door: &Door,
        frame: &Packet,
        outcome: &mut Outcome,
    ) -> Result<(), NoMemory>
        requires { outcome.old ≡ nothing }
        ensures { OnOk result (outcome.new
            ≡ tags self.now.hooks self.now.kind self.now.filters door.now frame.now) }
    {
        match door {
            Door::Hook(hook) => self.work_by(alloc, hook, frame, outcome),
            Door::Wire => Ok(()),
        }
    }
}
