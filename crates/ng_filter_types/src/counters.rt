// The two counters of a node that counts the frames it parts.
ghost use Rattle.std.specs.Prelude.{◌≡◌, IfOk};
ghost use Rattle.ng_machine.specs.Counters.{after_counts, raise_at, row_bytes, zeros};
ghost use Rattle.ng_filter_types.specs.Counts.{count_number};

use ng_base::{Bytes, Name, NoMemory};
use ng_message::put_u64;
use std::alloc::Global;
use std::marker::Model;

/// Two counters, which stop at 2^64 - 1. A contract sees them as a row.
#[derive(Drop)]
pub struct Counters {
    row: [u64; 2],
}

impl Model for Counters {
    ghost use Rattle.std.specs.Prelude.{ℕ, List};

    ghost Value = { List ℕ };

    ghost view = { λ c. c.row };
}

impl Counters {
    /// Both at 0.
    pub fn new() -> Counters
        ensures { result ≡ zeros 2 }
    {
        Counters { row: [0; 2] }
    }

    /// Raises the counter of a number. A number that neither has is passed over.
    fn raise(&mut self, number: u64, amount: u64)
        ensures { self.new ≡ raise_at self.old number amount }
    {
        if number < 2 {
            let place = number as usize;
            self.row[place] = self.row[place].saturating_add(amount);
        }
    }

    /// Adds what was counted, under whatever hook.
    pub fn absorb(&mut self, counts: &[(Name, u64, u64)])
        ensures { self.new ≡ after_counts count_number self.old counts.now }
    {
        for count in counts {
            self.raise(count.1, count.2);
        }
    }

    /// The counters one after another, as the statistics are answered.
    ///
    /// # Errors
    /// `NoMemory` where memory ran out, and for nothing else.
    pub fn bytes(&self, alloc: Global) -> Result<Bytes, NoMemory>
        ensures { IfOk result (λ bytes. bytes ≡ row_bytes self.now) }
    {
        let mut out = Vec::new(alloc);
        for counter in &self.row {
            put_u64(&mut out, *counter)?;
        }
        Ok(Bytes(out))
    }
}
