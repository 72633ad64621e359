// A host that a bridge knows.
ghost use Rattle.std.specs.Prelude.{◌≡◌, ◌++◌, ◌≤◌, OnOk};
ghost use Rattle.byteorder.specs.Endian.{big_number};
ghost use Rattle.ng_machine.specs.kinds.Bridge.{age_host, host_bytes, host_way, new_host, rest_host, seen_number};
ghost use Rattle.ng_machine.specs.Counters.{raise};
ghost use Rattle.std.specs.Prelude.{◌+◌, ◌^◌, min};

use ng_base::NoMemory;
use ng_message::{put_name, put_u16};
use ng_plan::BridgeHost;
use ng_plan::lookup::{address_number, link_hook};
use ng_sorted::Key;
use std::marker::Model;

/// The number under which the host of the address 0 is counted as seen; that of another host is greater by its address.
pub const SEEN: u64 = 1 << 48;

/// A host: its address, the number of its link, for how many seconds it has been there, for how many it wasn't seen,
/// and how often it was seen since time went by.
#[derive(Drop)]
pub struct Host {
    addr: [u8; 6],
    link: u8,
    age: u16,
    staleness: u16,
    seen: u64,
}

impl Model for Host {
    ghost use Rattle.std.specs.Prelude.{◌≤◌};
    ghost use Rattle.ng_machine.specs.kinds.Bridge as machine;

    ghost Value = { machine.Host };

    ghost view = { λ h. record { addr = h.addr; link = h.link; age = h.age; staleness = h.staleness; seen = h.seen } };

    ghost invariant = { λ h. h.link ≤ 32 };
}

/// Hosts stand in order of their addresses.
impl Key for Host {
    ghost key_of = { λ host. big_number 6 host.addr };

    fn key(&self) -> u64 {
        address_number(&self.addr)
    }
}

/// A time of 16 bits so many seconds later, which stops at 65,535.
fn later(time: u16, seconds: u32) -> u16
    ensures { result ≡ min (time + seconds) 65535 }
{
    let sum = u64::from(time) + u64::from(seconds);
    if sum < 65_535 { sum as u16 } else { 65_535 }
}

impl Host {
    /// A host as it is learned, behind a link.
    pub fn new(addr: [u8; 6], link: u8) -> Host
        requires { link ≤ 32 }
        ensures { result ≡ new_host addr link }
    {
        Host {
            addr,
            link,
            age: 0,
            staleness: 0,
            seen: 0,
        }
    }

    /// The number of its link.
    pub fn link(&self) -> u8
        ensures { result ≡ self.now.link }
    {
        self.link
    }

    /// For how many seconds it wasn't seen.
    pub fn staleness(&self) -> u16
        ensures { result ≡ self.now.staleness }
    {
        self.staleness
    }

    /// What a plan holds of it.
    pub fn way(&self) -> BridgeHost
        ensures { result ≡ host_way self.now }
    {
        BridgeHost {
            addr: self.addr,
            link: self.link,
            age: self.age,
        }
    }

    /// Counts that it was seen so often, at most 2^64 - 1 times.
    pub fn see(&mut self, amount: u64)
        ensures { self.new ≡ record (self.old) { seen = raise (self.old).seen amount } }
    {
        self.seen = self.seen.saturating_add(amount);
    }

    /// Lets so many seconds go by. Where it was seen before them, they alone are its staleness.
    pub fn grow_old(&mut self, seconds: u32)
        ensures { self.new ≡ age_host seconds (rest_host self.old) }
    {
        if self.seen > 0 {
            self.staleness = 0;
            self.seen = 0;
        }
        self.age = later(self.age, seconds);
        self.staleness = later(self.staleness, seconds);
    }

    /// Appends it as a row of the table: the address in 6 bytes, the hook in 32, age and staleness in 2 each. One that
    /// was seen since time went by isn't stale.
    ///
    /// # Errors
    /// `NoMemory` where memory ran out, and for nothing else.
    pub fn put(&self, out: &mut Vec<u8>) -> Result<(), NoMemory>
        ensures { OnOk result (out.new.items ≡ out.old.items ++ host_bytes self.now) }
    {
        let staleness = if self.seen > 0 { 0 } else { self.staleness };
        out.extend_from_slice(&self.addr)?;
        put_name(out, Some(&link_hook(self.link)))?;
        put_u16(out, self.age)?;
        put_u16(out, staleness)
    }
}
