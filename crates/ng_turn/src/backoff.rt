// How long a seat that waits leaves the processors to others.
ghost use Rattle.std.specs.Prelude.{◌≤◌};

use std::sync::Wait;
use std::thread;
use std::thread::Parker;
use std::time::Duration;

// The most times that other threads may run between two tries. With nothing else to run that is some hundred microseconds.
const MOST_YIELDS: u32 = 256;

// The shortest and the longest sleep, in microseconds.
const SHORTEST_SLEEP: u64 = 64;

const LONGEST_SLEEP: u64 = 1024;

/// What a seat does between two tries: it lets other threads run, once at first and twice as often from try to try, up to 256
/// times. After that it sleeps, 64 microseconds at first and twice as long from try to try, up to 1,024. So a seat that tries
/// in vain leaves the processors to those that have work, and is back soon where it needn't wait long.
#[derive(Drop)]
pub struct Backoff {
    yields: u32,
    sleep: u64,
    ghost few: { yields ≤ 512 },
    ghost short: { sleep ≤ 1024 },
}

impl Backoff {
    /// As before the first try.
    pub fn new() -> Backoff {
        Backoff {
            yields: 1,
            sleep: SHORTEST_SLEEP,
        }
    }

    /// Lets other threads run, or sleeps, and longer the next time.
    pub fn pause<R: Wait>(&mut self, rt: &R) {
        if self.yields > MOST_YIELDS {
            self.rest(rt);
            return;
        }
        for _ in 0..self.yields {
            thread::yield_now();
        }
        self.yields *= 2;
    }

    // Sleeps, and longer the next time. Nobody wakes the thread.
    fn rest<R: Wait>(&mut self, rt: &R) {
        Parker::new().park_timeout(rt, Duration::from_micros(self.sleep));
        if self.sleep <= LONGEST_SLEEP / 2 {
            self.sleep *= 2;
        }
    }
}
