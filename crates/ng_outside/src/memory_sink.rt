// A sink in memory, which tells what it holds and fails at the calls that are listed.
ghost use Rattle.std.specs.Prelude.{◌≡◌, ◌++◌, ◌-◌, ◌≤◌, ◌<◌, ◌↔◌, Some, [], take, length, IfOk, OnOk, OnErr, IsErr};
ghost use Rattle.std.specs.Io.KnownBytes.{Appends, Keeps};
ghost use Rattle.ng_outside.specs.Count.{next_count, Rose};
ghost use Rattle.ng_outside.specs.Memory.{moved_count, PutFails};

use crate::{Failed, Sink};
use ng_base::NoMemory;
use std::alloc::Global;
use std::marker::Model;

/// A sink in memory. It tells what it holds, and fails where it is told to.
///
/// A call fails exactly where its number is listed, or no room is left. The number is counted from 1
/// over all calls. A failed call changes no contents, and raises the count of faults by one,
/// up to its last value.
#[derive(Debug, Drop)]
pub struct MemSink {
    bytes: Vec<u8>,
    // For how many more bytes there is room.
    room: usize,
    slow: bool,
    failing: Vec<u64>,
    calls: u64,
    faults: u64,
}

impl Model for MemSink {
    ghost use Rattle.std.specs.Prelude.{◌+◌, ◌≤◌, vec_len, vec_capacity};
    ghost use Rattle.ng_outside.specs.Memory.{SinkState};

    ghost Value = { SinkState };

    ghost view = { λ m. record {
      bytes = m.bytes.items;
      room = m.room;
      slow = m.slow;
      failing = m.failing.items;
      calls = m.calls;
      faults = m.faults;
    } };

    ghost invariant = { λ m. vec_len m.bytes + m.room ≤ vec_capacity m.bytes };
}

impl MemSink {
    /// An empty sink with room for `room` bytes, whose calls of the numbers `faults` fail. A slow one
    /// takes one byte at each call, and not as many as fit. The room is reserved here, so no other
    /// call takes memory.
    ///
    /// # Errors
    /// `NoMemory` where memory ran out, and for nothing else.
    pub fn new(
        alloc: Global,
        room: usize,
        slow: bool,
        faults: Vec<u64>,
    ) -> Result<MemSink, NoMemory>
        ensures { IfOk result (λ sink. sink ≡ record {
          bytes = [];
          room = room;
          slow = slow;
          failing = faults.items;
          calls = 0;
          faults = 0;
        }) }
    {
        Ok(MemSink {
            bytes: Vec::with_capacity(alloc, room)?,
            room,
            slow,
            failing: faults,
            calls: 0,
            faults: 0,
        })
    }

    /// The bytes that it holds.
    pub fn bytes(&self) -> &[u8]
        ensures { result.now ≡ self.now.bytes }
    {
        self.bytes.as_slice()
    }

    /// For how many more bytes it has room.
    pub fn room(&self) -> usize
        ensures { result ≡ self.now.room }
    {
        self.room
    }

    /// How many calls there were.
    pub fn calls(&self) -> u64
        ensures { result ≡ self.now.calls }
    {
        self.calls
    }

    /// How many of them failed.
    pub fn faults(&self) -> u64
        ensures { result ≡ self.now.faults }
    {
        self.faults
    }
}

impl Sink for MemSink {
    ghost contents = { λ state. Some state.bytes };

    ghost faults = { λ state. state.faults };

    /// # Errors
    /// `Failed` exactly where the number of this call is listed or no room is left.
    fn put(&mut self, bytes: &[u8]) -> Result<usize, Failed>
        requires { 0 < length bytes.now }
        ensures failed { IsErr result ↔ PutFails self.old }
        ensures number { IfOk result (λ count. count ≡ moved_count self.old.slow (length bytes.now) self.old.room) }
        ensures ok { IfOk result (λ count. self.new ≡ record self.old {
          bytes = self.old.bytes ++ take count bytes.now;
          room = self.old.room - count;
          calls = next_count self.old.calls;
        }) }
        ensures err { OnErr result (self.new ≡ record self.old {
          calls = next_count self.old.calls;
          faults = next_count self.old.faults;
        }) }

        // What every implementation promises.
        ensures some { IfOk result (λ count. 0 < count) }
        ensures within { IfOk result (λ count. count ≤ length bytes.now) }
        ensures grown { IfOk result (λ count. Appends (Some self.old.bytes) (Some self.new.bytes) (take count bytes.now)) }
        ensures same { OnErr result (Keeps (Some self.old.bytes) (Some self.new.bytes)) }
        ensures counts { self.old.faults ≤ self.new.faults }
        ensures cause { OnErr result (Rose self.old.faults self.new.faults) }
    {
        self.calls = self.calls.saturating_add(1);
        if self.room == 0 || self.failing.contains(&self.calls) {
            self.faults = self.faults.saturating_add(1);
            return Err(Failed);
        }
        let most = if self.slow { 1 } else { bytes.len() };
        let count = most.min(self.room);
        self.bytes.extend_from_slice(&bytes[..count]).unwrap();
        self.room -= count;
        Ok(count)
    }
}
