// The counter, and what each seat has to itself in it.
ghost use Rattle.std.specs.Prelude.{◌≡◌, ◌+◌, ◌<◌, ◌^◌, IfOk, length, replicate, slice_index, slice_set};

use ng_turn::Desked;
use std::alloc::{AllocError, Global};

/// A number that seats add 1 to. It keeps apart how often each seat has added.
#[derive(Drop)]
pub struct Counter {
    start: u64,
    additions: Vec<u64>,
}

/// What the desk of a seat shows: what the counter began with, how many seats there are, and how
/// often this seat has added. Contracts alone speak of desks.
pub struct Desk {
    pub start: u64,
    pub seats: u64,
    pub additions: u64,
}

impl Desked for Counter {
    ghost use Rattle.ng_machine_tests.specs.counter.Counter.{desk_at, blank_desk};

    type Desk = Desk;

    ghost desk = { desk_at };

    ghost blank = { blank_desk };
}

impl Counter {
    ghost use Rattle.ng_machine_tests.specs.counter.Counter.{additions_of, start_of, total_of};

    /// A counter at `start`, to which no seat has added yet. `Err` is out of memory.
    pub fn new(alloc: Global, start: u64, seats: usize) -> Result<Counter, AllocError>
        ensures { IfOk result (λ counter. (start_of counter ≡ start) × (additions_of counter ≡ replicate seats 0)) }
    {
        let additions = Vec::from_elem(alloc, 0, seats)?;
        Ok(Counter { start, additions })
    }

    /// Adds 1 for the seat.
    pub fn add(&mut self, seat: u32)
        requires seat { seat < length (additions_of self.old) }
        requires room { slice_index (additions_of self.old) seat + 1 < 2 ^ 64 }
        ensures start { start_of self.new ≡ start_of self.old }
        ensures additions { additions_of self.new
            ≡ slice_set (additions_of self.old) seat (slice_index (additions_of self.old) seat + 1) }
    {
        self.additions[seat as usize] += 1;
    }

    /// How often the seat has added.
    pub fn additions(&self, seat: u32) -> u64
        requires { seat < length (additions_of self.now) }
        ensures { result ≡ slice_index (additions_of self.now) seat }
    {
        self.additions[seat as usize]
    }

    /// What the counter began with and all that was added.
    pub fn total(&self) -> u64
        requires { total_of self.now < 2 ^ 64 }
        ensures { result ≡ total_of self.now }
    {
        let added: u64 = self.additions.iter().sum();
        self.start + added
    }
}
