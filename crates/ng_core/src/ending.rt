// How a core ends.
ghost use Rattle.std.specs.Prelude.{◌≡◌, ℕ, ◌+◌, ◌<◌, ◌≤◌, true, false, slice_set, Some, None, OnOk, OnErr, IfErr};
ghost use Rattle.std.specs.List.{list_any};
ghost use Rattle.ng_core.specs.CoreStory.{story};
ghost use Rattle.ng_machine.specs.story.Closing.{close_refusal, closed_with};
ghost use Rattle.ng_machine.specs.story.DeskLaws.{closed_desk};
ghost use Rattle.ng_machine.specs.story.Desks.{Others, story_desk};
ghost use Rattle.ng_machine.specs.story.Story.{given_up_by, has_ended, has_failed};

use crate::Core;
use crate::stopping::{stop_if, stops};
use ng_machine::story::{Unclosed, refusal_to_close};
use ng_plan::node::Node;

// Whether a seat has its mark.
fn is_marked(marks: &[bool]) -> bool
    ensures { result ≡ list_any (λ b. b) marks.now }
{
    marks.iter().any(|mark| *mark)
}

impl<B: Node> Core<B> {
    /// Whether the core has ended: it was closed, or a seat gave up.
    pub fn ended(&self) -> bool
        ensures { result ≡ has_ended (story self.now) }
    {
        self.parts.closed.is_some() || is_marked(&self.parts.gave_up)
    }

    /// Whether a seat gave up.
    pub fn failed(&self) -> bool
        ensures { result ≡ has_failed (story self.now) }
    {
        is_marked(&self.parts.gave_up)
    }

    /// The seat gives up, since memory ran out: the core has ended. It takes no memory.
    pub fn give_up(&mut self, seat: u32)
        requires { seat < self.old.seats }
        ensures gave_up { story self.new ≡ given_up_by (story self.old) seat }
        ensures own { story_desk (story self.new) seat ≡ record (story_desk (story self.old) seat) { gave_up = true } }
        ensures others { Others seat (story self.old) (story self.new) }
    {
        self.parts.gave_up[seat as usize] = true;
    }

    /// Ends the core, as the seat 0, where so many inputs are unfed: by a Stop, which drops what is pending, where the limit of
    /// applied items is reached and something is pending or unfed. It takes no memory.
    ///
    /// # Errors
    /// The first refusal that holds, where the limit isn't reached: items are pending, or inputs are unfed. Nothing changed.
    pub fn close(&mut self, unfed: u64) -> Result<(), Unclosed>
        requires { has_ended (story self.old) ≡ false }
        ensures closed { OnOk result (story self.new ≡ closed_with (story self.old) unfed) }
        ensures may { OnOk result (close_refusal (story self.old) unfed ≡ None) }
        ensures cause { IfErr result (λ why. close_refusal (story self.old) unfed ≡ Some why) }
        ensures own { OnOk result (story_desk (story self.new) 0 ≡ closed_desk (story self.old) unfed) }
        ensures err { OnErr result (self.new ≡ self.old) }
        ensures others { Others 0 (story self.old) (story self.new) }
    {
        let parts = &mut *self.parts;
        let spent = parts.state.pending.tally.applies == parts.budget;
        let pending = parts.state.pending.tally.pending;
        if let Some(why) = refusal_to_close(spent, pending, unfed) {
            return Err(why);
        }
        let stops = stops(spent, pending, unfed);
        stop_if(stops, &mut parts.state, &mut parts.journal);
        parts.closed = Some(unfed);
        Ok(())
    }
}
