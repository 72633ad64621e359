// ng_bridge(4): sends a frame toward the station that it is for.
ghost use Rattle.std.specs.Prelude.{◌≡◌, ◌∷◌, ◌≤◌, ◌++◌, ◌==◌, [], length, is_none, OnOk, Some};
ghost use Rattle.std.specs.Option.{option_copied};
ghost use Rattle.ng_machine.specs.kinds.Bridge.{bridges, counts_group, counts_sent, counts_unknown, floods, forwards, hears, host_of, Known, link_number, Looped, meets, one_more, others, seen_number, standing, standing_of, to_host, toward};
ghost use Rattle.ng_machine.specs.kinds.Macset.{source_of};
ghost use Rattle.ng_machine.specs.Outcome.{counts_only, nothing};

use crate::bridge_plan::links::{hook_of_link, mute_of};
use crate::lookup::{
    NameTable, Table, address_number, count_packet, destination_of, is_broadcast, is_group,
    link_number, same_address, send, source_of,
};
use ng_base::{Name, NoMemory, Packet};
use ng_frame::MIN_FRAME_LEN;
use ng_machine::{BridgeConfig, BridgeHost, BridgeLink, Counts, Door, Outcome};
use std::alloc::Global;

/// The numbers of a link's counters, in the order of `struct ng_bridge_link_stats`.
const RECV_OCTETS: u64 = 0;

const RECV_PACKETS: u64 = 1;

const RECV_MULTICASTS: u64 = 2;

const RECV_BROADCASTS: u64 = 3;

const RECV_UNKNOWN: u64 = 4;

const RECV_RUNTS: u64 = 5;

const RECV_INVALID: u64 = 6;

const XMIT_OCTETS: u64 = 7;

const XMIT_PACKETS: u64 = 8;

const XMIT_MULTICASTS: u64 = 9;

const XMIT_BROADCASTS: u64 = 10;

const LOOP_DROPS: u64 = 11;

/// Above the numbers of counters: the number under which the host of the address 0 is counted as seen, and those of
/// the others by their addresses behind it.
const SEEN: u64 = 1 << 48;

/// The most hosts of a bridge.
const MAX_HOSTS: usize = 4_096;

/// What a bridge works by: its configuration, its links and its hosts.
#[derive(Drop)]
pub struct BridgePlan {
    pub config: BridgeConfig,
    pub links: NameTable<BridgeLink>,
    pub hosts: Table<BridgeHost>,
}

/// The number under which the host of an address is counted as seen.
fn seen_number(address: &[u8; 6]) -> u64
    ensures { result ≡ seen_number address.now }
{
    SEEN + address_number(address)
}

/// Counts one under a number.
fn count_one(counts: &mut Counts, hook: &Name, number: u64) -> Result<(), NoMemory>
    ensures { OnOk result (counts.new ≡ counts.old ++ one_more hook.now number) }
{
    counts.push((*hook, number, 1))?;
    Ok(())
}

/// Counts a frame to a group of stations under the number for all stations, or that for some.
fn count_group(
    counts: &mut Counts,
    hook: &Name,
    broadcasts: u64,
    multicasts: u64,
    destination: &[u8; 6],
) -> Result<(), NoMemory>
    ensures { OnOk result (counts.new ≡ counts.old ++ counts_group hook.now broadcasts multicasts destination.now) }
{
    if is_broadcast(destination) {
        count_one(counts, hook, broadcasts)
    } else if is_group(destination) {
        count_one(counts, hook, multicasts)
    } else {
        Ok(())
    }
}

/// Counts a frame that goes out of a link.
fn count_sent(counts: &mut Counts, frame: &[u8], hook: &Name) -> Result<(), NoMemory>
    requires { 14 ≤ length frame.now }
    ensures { OnOk result (counts.new ≡ counts.old ++ counts_sent frame.now hook.now) }
{
    count_packet(counts, XMIT_PACKETS, XMIT_OCTETS, hook, frame.len() as u64)?;
    count_group(
        counts,
        hook,
        XMIT_BROADCASTS,
        XMIT_MULTICASTS,
        &destination_of(frame),
    )
}

/// A frame out of a link, where it is counted, behind what an outcome has already.
fn send_out(hook: &Name, frame: &Packet, outcome: &mut Outcome) -> Result<(), NoMemory>
    requires { 14 ≤ length frame.now }
    ensures { OnOk result (outcome.new ≡ record outcome.old {
      sends = outcome.old.sends ++ (hook.now, frame.now) ∷ [];
      counts = outcome.old.counts ++ counts_sent frame.now hook.now;
    }) }
{
    send(outcome, hook, frame)?;
    count_sent(&mut outcome.counts, frame.bytes(), hook)
}

/// A frame out of all links but one.
fn flood(
    links: &[BridgeLink],
    hook: &Name,
    frame: &Packet,
    outcome: &mut Outcome,
) -> Result<(), NoMemory>
    requires whole { 14 ≤ length frame.now }
    requires unsent { outcome.old ≡ record nothing { counts = outcome.old.counts; learn = outcome.old.learn } }
    ensures { OnOk result (outcome.new
        ≡ floods (others links.now hook.now) frame.now outcome.old.counts outcome.old.learn) }
{
    for link in links {
        if link.hook != *hook {
            send_out(&link.hook, frame, outcome)?;
        }
    }
    Ok(())
}

/// The host of an address.
fn host_of<'a>(hosts: &'a Table<BridgeHost>, address: &[u8; 6]) -> Option<&'a BridgeHost>
    ensures { option_copied result ≡ host_of address.now hosts.now }
{
    match hosts.find(address_number(address)) {
        Some(host) => {
            same_address(&host.addr, address);
            Some(host)
        }
        None => None,
    }
}

impl BridgePlan {
    /// A frame toward a link, where that isn't the link of arrival.
    fn send_toward(
        &self,
        hook: &Name,
        link: u8,
        frame: &Packet,
        outcome: &mut Outcome,
    ) -> Result<(), NoMemory>
        requires whole { 14 ≤ length frame.now }
        requires unsent { outcome.old ≡ record nothing { counts = outcome.old.counts; learn = outcome.old.learn } }
        ensures { OnOk result (outcome.new
            ≡ floods (toward self.now.links (link_number hook.now) link) frame.now outcome.old.counts outcome.old.learn) }
    {
        if link == link_number(hook) {
            return Ok(());
        }
        match hook_of_link(&self.links, link) {
            Some(out) => send_out(&out, frame, outcome),
            None => Ok(()),
        }
    }

    /// A frame to one station, by the host that the station is: one that is no host is counted as unknown, and goes out
    /// of all links but one.
    fn send_to_host(
        &self,
        hook: &Name,
        host: Option<&BridgeHost>,
        frame: &Packet,
        outcome: &mut Outcome,
    ) -> Result<(), NoMemory>
        requires whole { 14 ≤ length frame.now }
        requires unsent { outcome.old ≡ record nothing { counts = outcome.old.counts; learn = outcome.old.learn } }
        ensures { OnOk result (outcome.new
            ≡ floods (to_host self.now.links hook.now (option_copied host.entry)) frame.now
            (outcome.old.counts ++ counts_unknown (is_none (option_copied host.entry)) hook.now) outcome.old.learn) }
    {
        match host {
            None => {
                count_one(&mut outcome.counts, hook, RECV_UNKNOWN)?;
                flood(self.links.as_slice(), hook, frame, outcome)
            }
            Some(host) => self.send_toward(hook, host.link, frame, outcome),
        }
    }

    /// Sends a frame on its way.
    fn forward(
        &self,
        hook: &Name,
        frame: &Packet,
        learn: Option<[u8; 6]>,
        outcome: &mut Outcome,
    ) -> Result<(), NoMemory>
        requires whole { 14 ≤ length frame.now }
        requires counted { outcome.old ≡ counts_only outcome.old.counts }
        ensures { OnOk result (outcome.new
            ≡ forwards self.now.links self.now.hosts hook.now frame.now outcome.old.counts learn) }
    {
        outcome.learn = learn;
        let destination = destination_of(frame.bytes());
        if is_group(&destination) {
            flood(self.links.as_slice(), hook, frame, outcome)
        } else if destination == source_of(frame.bytes()) {
            Ok(())
        } else {
            self.send_to_host(hook, host_of(&self.hosts, &destination), frame, outcome)
        }
    }

    /// A good frame whose source is known on its link: it is counted as seen.
    fn meet_known(&self, hook: &Name, frame: &Packet, outcome: &mut Outcome) -> Result<(), NoMemory>
        requires whole { 14 ≤ length frame.now }
        requires counted { outcome.old ≡ counts_only outcome.old.counts }
        ensures { OnOk result (outcome.new
            ≡ meets Known self.now.links self.now.hosts hook.now frame.now outcome.old.counts) }
    {
        let seen = seen_number(&source_of(frame.bytes()));
        count_one(&mut outcome.counts, hook, seen)?;
        self.forward(hook, frame, None, outcome)
    }

    /// A good frame whose source is known on another link too short a time ago: it is dropped.
    fn meet_looped(
        &self,
        hook: &Name,
        frame: &Packet,
        outcome: &mut Outcome,
    ) -> Result<(), NoMemory>
        requires whole { 14 ≤ length frame.now }
        requires counted { outcome.old ≡ counts_only outcome.old.counts }
        ensures { OnOk result (outcome.new
            ≡ meets Looped self.now.links self.now.hosts hook.now frame.now outcome.old.counts) }
    {
        outcome.learn = Some(source_of(frame.bytes()));
        count_one(&mut outcome.counts, hook, LOOP_DROPS)
    }

    /// A good frame whose source is a host that is known.
    fn meet_host(
        &self,
        hook: &Name,
        frame: &Packet,
        host: &BridgeHost,
        outcome: &mut Outcome,
    ) -> Result<(), NoMemory>
        requires whole { 14 ≤ length frame.now }
        requires counted { outcome.old ≡ counts_only outcome.old.counts }
        ensures { OnOk result (outcome.new
            ≡ meets (standing_of self.now.config (length self.now.hosts) (link_number hook.now) (Some host.now))
            self.now.links self.now.hosts hook.now frame.now outcome.old.counts) }
    {
        if host.link == link_number(hook) {
            self.meet_known(hook, frame, outcome)
        } else if u32::from(host.age) < self.config.min_stable_age {
            self.meet_looped(hook, frame, outcome)
        } else {
            let learn = Some(source_of(frame.bytes()));
            self.forward(hook, frame, learn, outcome)
        }
    }

    /// A good frame on a link that isn't mute, by how its source stands.
    fn meet(&self, hook: &Name, frame: &Packet, outcome: &mut Outcome) -> Result<(), NoMemory>
        requires whole { 14 ≤ length frame.now }
        requires counted { outcome.old ≡ counts_only outcome.old.counts }
        ensures { OnOk result (outcome.new
            ≡ meets (standing self.now.config self.now.hosts (link_number hook.now) (source_of frame.now))
            self.now.links self.now.hosts hook.now frame.now outcome.old.counts) }
    {
        let source = source_of(frame.bytes());
        match host_of(&self.hosts, &source) {
            Some(host) => self.meet_host(hook, frame, host, outcome),
            None => {
                let has_room = self.hosts.as_slice().len() < MAX_HOSTS;
                let learn = if has_room { Some(source) } else { None };
                self.forward(hook, frame, learn, outcome)
            }
        }
    }

    /// A packet that comes by a hook.
    fn hear(&self, hook: &Name, frame: &Packet, outcome: &mut Outcome) -> Result<(), NoMemory>
        requires { outcome.old ≡ nothing }
        ensures { OnOk result (outcome.new
            ≡ hears self.now.config self.now.links self.now.hosts hook.now frame.now) }
    {
        let bytes = frame.bytes();
        let len = bytes.len() as u64;
        count_packet(&mut outcome.counts, RECV_PACKETS, RECV_OCTETS, hook, len)?;
        if bytes.len() < MIN_FRAME_LEN {
            return count_one(&mut outcome.counts, hook, RECV_RUNTS);
        }
        if is_group(&source_of(bytes)) {
            return count_one(&mut outcome.counts, hook, RECV_INVALID);
        }
        if mute_of(&self.links, hook) > 0 {
            return count_one(&mut outcome.counts, hook, LOOP_DROPS);
        }
        count_group(
            &mut outcome.counts,
            hook,
            RECV_BROADCASTS,
            RECV_MULTICASTS,
            &destination_of(bytes),
        )?;
        self.meet(hook, frame, outcome)
    }

    /// What becomes of a packet, put into an outcome that has nothing yet.
    ///
    /// # Errors
    /// `NoMemory` where memory ran out, and for nothing else; the outcome may have a part of it then.
    pub fn work(&self, door: &Door, frame: &Packet, outcome: &mut Outcome) -> Result<(), NoMemory>
        requires { outcome.old ≡ nothing }
        ensures { OnOk result (outcome.new
            ≡ bridges self.now.config self.now.links self.now.hosts door.now frame.now) }
    {
        match door {
            Door::Hook(hook) => self.hear(hook, frame, outcome),
            Door::Wire => Ok(()),
        }
    }
}
