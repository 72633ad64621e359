// Why an input isn't fed.
ghost use Rattle.std.specs.Prelude.{◌≡◌};
ghost use Rattle.ng_machine.specs.Feed.{request_of};
ghost use Rattle.ng_machine.specs.Refusal.{is_command, is_write, wants_window};
ghost use Rattle.ng_queue.specs.tally.Feeding.{count_refusal};

use crate::tally::Tally;
use ng_machine::{Fed, Input, What};

// As many packets may wait where one more is fed.
const FEEDING_FRAMES: u64 = 1024;

fn is_command(input: &Input) -> bool
    ensures { result ≡ is_command input.now }
{
    matches!(input, Input::Command(_) | Input::Late(_))
}

fn is_write(what: &What) -> bool
    ensures { result ≡ is_write (request_of what.now) }
{
    matches!(what, What::Write { .. })
}

// Whether the input brings a packet or a tick.
fn wants_window(input: &Input) -> bool
    ensures { result ≡ wants_window input.now }
{
    match input {
        Input::Command(command) | Input::Late(command) => is_write(&command.get().what),
        Input::Packet { .. } | Input::Tick(_) => true,
    }
}

impl Tally {
    /// Why the input isn't fed, where as many items may be applied as `budget` says: the first cause that holds.
    pub fn refusal(&self, budget: u64, input: &Input) -> Option<Fed>
        ensures { result ≡ count_refusal budget self.now input.now }
    {
        if self.applies >= budget {
            return Some(Fed::Spent(self.applies));
        }
        if is_command(input) && self.tagged > 0 {
            return Some(Fed::Unsettled(self.command));
        }
        if matches!(input, Input::Late(_)) && self.pending > 0 {
            return Some(Fed::NotQuiet(self.pending));
        }
        if wants_window(input) && self.frames >= FEEDING_FRAMES {
            return Some(Fed::Window(self.frames));
        }
        if matches!(input, Input::Tick(_)) && self.ticks > 0 {
            return Some(Fed::Ticking(self.ticks));
        }
        None
    }
}
