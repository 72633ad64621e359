// The hosts that a bridge knows.
ghost use Rattle.std.specs.Prelude.{◌≡◌, ◌++◌, ◌≤◌, [], length, map, nat_lt, ◌<◌, None, IfOk, OnErr, OnOk, vec_capacity};
ghost use Rattle.std.specs.List.{filter, flat_map, insert};
ghost use Rattle.std.specs.Option.{option_copied, option_map};
ghost use Rattle.byteorder.specs.Endian.{big_number};
ghost use Rattle.ng_machine.specs.kinds.Bridge.{age_host, elsewhere, host_bytes, host_of, host_way, most_hosts, new_host, put_host, rest_host, see_host};
ghost use Rattle.std.specs.Prelude.{◌+◌, ◌^◌};
ghost use Rattle.ng_switch_types.specs.bridge.Hosts.{address_of};
ghost use Rattle.ng_sorted.specs.Order.{IsInOrder};

use crate::bridge::host::{Host, SEEN};
use ng_base::{NoMemory, Sequence};
use ng_plan::BridgeHost;
use ng_plan::lookup::{Table, address_number};
use ng_sorted::place;
use std::alloc::Global;
use std::marker::Model;

/// Hosts in order of their addresses.
///
/// Beside them stands what a plan holds of each, so that a plan is a copy of it.
#[derive(Drop)]
pub struct Hosts {
    hosts: Vec<Host>,
    ways: Vec<BridgeHost>,
}

impl Model for Hosts {
    ghost use Rattle.std.specs.Prelude.{List};
    ghost use Rattle.ng_machine.specs.kinds.Bridge as machine;
    ghost use Rattle.ng_switch_types.specs.bridge.Hosts.{AreKept};

    ghost Value = { List machine.Host };

    ghost view = { λ s. s.hosts.items };

    ghost invariant = { λ s. AreKept s.hosts.items s.ways.items };
}

impl Hosts {
    /// No hosts. It takes no memory.
    pub fn new(alloc: Global) -> Hosts
        ensures { result ≡ [] }
    {
        Hosts {
            hosts: Vec::new(alloc),
            ways: Vec::new(alloc),
        }
    }

    /// How many there are, at most 4,096.
    pub fn len(&self) -> usize
        ensures value { result ≡ length self.now }
        ensures bound { result ≤ most_hosts }
    {
        self.hosts.len()
    }

    /// The host of this address.
    pub fn find(&self, addr: &[u8; 6]) -> Option<&Host>
        ensures { option_map host_way (option_copied result) ≡ host_of addr.now (map host_way self.now) }
    {
        match place(&self.hosts, address_number(addr)) {
            Ok(at) => Some(&self.hosts[at]),
            Err(_) => None,
        }
    }

    /// What a plan holds of the hosts, as a copy that looks at none of them.
    ///
    /// # Errors
    /// `NoMemory` where memory ran out, and for nothing else.
    pub fn ways(&self, alloc: Global) -> Result<Table<BridgeHost>, NoMemory>
        ensures { IfOk result (λ ways. ways ≡ map host_way self.now) }
    {
        let ways = Vec::from_slice(alloc, &self.ways)?;
        Ok(Table::ascending(Sequence::from_vec(ways)))
    }

    /// Appends the hosts as rows of the table.
    ///
    /// # Errors
    /// `NoMemory` where memory ran out, and for nothing else.
    pub fn put_rows(&self, out: &mut Vec<u8>) -> Result<(), NoMemory>
        ensures { OnOk result (out.new.items ≡ out.old.items ++ flat_map host_bytes self.now) }
    {
        for host in &self.hosts {
            host.put(out)?;
        }
        Ok(())
    }

    /// Learns that the host of an address is behind a link: one that was behind another moves.
    ///
    /// # Errors
    /// `NoMemory` where memory ran out, and for nothing else; the hosts are then as before.
    pub fn learn(&mut self, addr: &[u8; 6], link: u8) -> Result<(), NoMemory>
        requires bound { link ≤ 32 }
        requires room { host_of addr.now (map host_way self.old) ≡ None → length self.old < most_hosts }
        ensures ok { OnOk result (self.new ≡ put_host (new_host addr.now link) self.old) }
        ensures err { OnErr result (self.new ≡ self.old) }
    {
        match place(&self.hosts, address_number(addr)) {
            Ok(at) => {
                let host = Host::new(*addr, link);
                self.ways[at] = host.way();
                self.hosts[at] = host;
                Ok(())
            }
            Err(at) => insert(&mut self.hosts, &mut self.ways, at, Host::new(*addr, link)),
        }
    }

    /// Counts a host as seen, by the number under which it is counted. Where there is no such host, nothing changes.
    pub fn see(&mut self, number: u64, amount: u64)
        ensures { self.new ≡ map (see_host number amount) self.old }
    {
        if number >= SEEN {
            see_one(&mut self.hosts, number - SEEN, amount);
        }
    }

    /// Forgets the hosts behind a link.
    pub fn forget(&mut self, link: u8)
        ensures { self.new ≡ elsewhere link self.old }
    {
        self.hosts.retain(|host| host.link() != link);
        self.ways.retain(|way| way.link != link);
    }

    /// Forgets all hosts.
    pub fn clear(&mut self)
        ensures { self.new ≡ [] }
    {
        self.hosts.clear();
        self.ways.clear();
    }

    /// Lets so many seconds go by, and forgets the hosts that weren't seen for as long as the limit.
    pub fn grow_old(&mut self, seconds: u32, limit: u32)
        ensures { self.new ≡ filter (λ h. nat_lt h.staleness limit) (map (λ h. age_host seconds (rest_host h)) self.old) }
    {
        grow_all_old(&mut self.hosts, seconds);
        self.hosts
            .retain(|host| u32::from(host.staleness()) < limit);
        write_ways(&mut self.ways, &self.hosts);
    }
}

/// Adds a host at a place, and what a plan holds of it.
fn insert(
    hosts: &mut Vec<Host>,
    ways: &mut Vec<BridgeHost>,
    at: usize,
    host: Host,
) -> Result<(), NoMemory>
    requires in_hosts { at ≤ length hosts.old.items }
    requires in_ways { at ≤ length ways.old.items }
    ensures host { OnOk result (hosts.new.items ≡ insert hosts.old.items at host) }
    ensures way { OnOk result (ways.new.items ≡ insert ways.old.items at (host_way host)) }
    ensures hosts_stay { OnErr result (hosts.new.items ≡ hosts.old.items) }
    ensures ways_stay { OnErr result (ways.new.items ≡ ways.old.items) }
{
    hosts.reserve(1)?;
    ways.insert(at, host.way())?;
    let Ok(()) = hosts.insert(at, host) else {
        unreachable!()
    };
    Ok(())
}

/// Writes anew what a plan holds of each host. There has to be memory for it.
fn write_ways(ways: &mut Vec<BridgeHost>, hosts: &[Host])
    requires { length hosts.now ≤ vec_capacity ways.old }
    ensures { ways.new.items ≡ map host_way hosts.now }
{
    ways.clear();
    for host in hosts {
        ways.push_reserved(host.way());
    }
}

/// Lets so many seconds go by for each host.
fn grow_all_old(hosts: &mut [Host], seconds: u32)
    ensures { hosts.new ≡ map (λ h. age_host seconds (rest_host h)) hosts.old }
{
    for host in hosts.iter_mut() {
        host.grow_old(seconds);
    }
}

/// Counts the host of an address as seen. Where there is no such host, nothing changes.
fn see_one(hosts: &mut [Host], addr: u64, amount: u64)
    requires { IsInOrder address_of hosts.old }
    ensures { hosts.new ≡ map (see_host (2 ^ 48 + addr) amount) hosts.old }
{
    if let Ok(at) = place(hosts, addr) {
        hosts[at].see(amount);
    }
}
