// A link of a bridge.
ghost use Rattle.std.specs.Prelude.{◌≡◌, ◌++◌, ◌<◌, ◌≤◌, OnOk};
ghost use Rattle.ng_machine.specs.kinds.Bridge.{calm_link, link_way, loop_detects, new_link};
ghost use Rattle.ng_machine.specs.Counters.{raise_at, row_bytes, zeros};

use ng_base::NoMemory;
use ng_message::put_u64;
use ng_plan::{BridgeLink, link_hook};
use ng_sorted::Key;
use std::marker::Model;

/// The counter of loops, among those of `struct ng_bridge_link_stats`.
const LOOP_DETECTS: usize = 12;

/// A link: its number, for how many seconds more it is mute, and its counters in the order of `struct
/// ng_bridge_link_stats`.
#[derive(Drop)]
pub struct Link {
    number: u8,
    mute: u32,
    counters: [u64; 14],
}

impl Model for Link {
    ghost use Rattle.std.specs.Prelude.{◌≤◌};
    ghost use Rattle.ng_machine.specs.kinds.Bridge as machine;

    ghost Value = { machine.Link };

    ghost view = { λ l. record { number = l.number; mute = l.mute; counters = l.counters } };

    ghost invariant = { λ l. l.number ≤ 32 };
}

/// Links stand in order of their numbers.
impl Key for Link {
    ghost key_of = { λ link. link.number };

    fn key(&self) -> u64 {
        u64::from(self.number)
    }
}

impl Link {
    /// A link as a new hook has it, of this number.
    pub fn new(number: u8) -> Link
        requires { number ≤ 32 }
        ensures { result ≡ new_link number }
    {
        Link {
            number,
            mute: 0,
            counters: [0; 14],
        }
    }

    /// The number.
    pub fn number(&self) -> u8
        ensures { result ≡ self.now.number }
    {
        self.number
    }

    /// For how many seconds more it is mute.
    pub fn mute(&self) -> u32
        ensures { result ≡ self.now.mute }
    {
        self.mute
    }

    /// What a plan holds of it.
    pub fn way(&self) -> BridgeLink
        ensures { result ≡ link_way self.now }
    {
        BridgeLink {
            hook: link_hook(self.number),
            mute: self.mute,
        }
    }

    /// Adds to a counter, which stops at 2^64 - 1.
    pub fn count(&mut self, counter: u64, amount: u64)
        requires { counter < 14 }
        ensures { self.new ≡ record (self.old) { counters = raise_at (self.old).counters counter amount } }
    {
        let place = counter as usize;
        self.counters[place] = self.counters[place].saturating_add(amount);
    }

    /// Sets the counters to 0.
    pub fn clear(&mut self)
        ensures { self.new ≡ record (self.old) { counters = zeros 14 } }
    {
        self.counters = [0; 14];
    }

    /// Makes it mute for so many seconds, since a loop was found on it, and counts the loop.
    pub fn mute_for(&mut self, seconds: u32)
        ensures { self.new ≡ record (self.old) { mute = seconds; counters = raise_at (self.old).counters loop_detects 1 } }
    {
        self.mute = seconds;
        self.counters[LOOP_DETECTS] = self.counters[LOOP_DETECTS].saturating_add(1);
    }

    /// Lets so many seconds go by.
    pub fn calm(&mut self, seconds: u32)
        ensures { self.new ≡ calm_link seconds self.old }
    {
        self.mute = self.mute.saturating_sub(seconds);
    }

    /// Ends its mute and sets the counters to 0.
    pub fn reset(&mut self)
        ensures { self.new ≡ new_link (self.old).number }
    {
        self.mute = 0;
        self.counters = [0; 14];
    }

    /// Appends the counters as the structure of the statistics.
    ///
    /// # Errors
    /// `NoMemory` where memory ran out, and for nothing else.
    pub fn put_counters(&self, out: &mut Vec<u8>) -> Result<(), NoMemory>
        ensures { OnOk result (out.new.items ≡ out.old.items ++ row_bytes (self.now).counters) }
    {
        for counter in &self.counters {
            put_u64(out, *counter)?;
        }
        Ok(())
    }
}
