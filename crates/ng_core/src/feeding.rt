// An input is fed.
ghost use Rattle.std.specs.Prelude.{◌≡◌, ◌+◌, ◌^◌, ◌<◌, ◌≤◌, [], ◌∷◌, false, length, vec_len, vec_capacity, None, OnOk, OnErr, IfErr};
ghost use Rattle.ng_base.specs.declared.event.Event.TheVariants.{Feed};
ghost use Rattle.ng_machine.specs.Refusal.{feed_refusal};
ghost use Rattle.ng_core.specs.CoreStory.{story};
ghost use Rattle.ng_core.specs.Calls.{IsFeedFault};
ghost use Rattle.ng_machine.specs.story.DeskLaws.{fed_desk};
ghost use Rattle.ng_machine.specs.story.Desks.{Others, story_desk};
ghost use Rattle.ng_machine.specs.story.Story.{AreFitFor, has_ended, with_event, with_input, world_of};

use crate::intake::feed_input;
use crate::{Core, FeedFault};
use ng_base::{Event, NoMemory};
use ng_journal::kept::Journal;
use ng_machine::Input;
use ng_plan::node::Node;
use std::alloc::Global;

// Room for an input more, and for its event beside those that the taken items will have.
fn make_room(inputs: &mut Vec<Input>, journal: &mut Journal, out: u64) -> Result<(), NoMemory>
    requires { out + 1 ≤ journal.old.room }
    ensures few { length inputs.old.items < 2 ^ 63 }
    ensures inputs { inputs.new.items ≡ inputs.old.items }
    ensures journal { journal.new.items ≡ journal.old.items }
    ensures more { journal.old.room ≤ journal.new.room }
    ensures room { OnOk result ((vec_len inputs.new < vec_capacity inputs.new) × (out + 2 ≤ journal.new.room)) }
{
    let Some(events) = (out as usize).checked_add(2) else {
        return Err(NoMemory);
    };
    inputs.reserve(1)?;
    journal.reserve(events)
}

// How many events an input makes of itself and of what follows, more or less.
const EVENTS: usize = 16;

// Room ahead for so many inputs and their events, as far as there is memory.
fn make_room_ahead(inputs: &mut Vec<Input>, journal: &mut Journal, count: usize)
    ensures inputs { inputs.new.items ≡ inputs.old.items }
    ensures journal { journal.new.items ≡ journal.old.items }
    ensures more { journal.old.room ≤ journal.new.room }
{
    let _reserved = inputs.reserve(count);
    journal.expect(count.saturating_mul(EVENTS));
}

impl<B: Node> Core<B> {
    /// Takes memory ahead for so many inputs and for what they bring about, as far as there is memory: lists that are long then
    /// don't grow by being copied. Nothing else changes.
    pub fn expect(&mut self, inputs: usize)
        ensures { self.new ≡ self.old }
    {
        let parts = &mut *self.parts;
        make_room_ahead(&mut parts.inputs, &mut parts.journal, inputs);
    }

    /// Feeds an input, as the seat 0.
    ///
    /// # Errors
    /// `Not` with the first cause that holds: as many items were applied as may be, the last command isn't settled, a late one
    /// while something is pending, too many packets wait, or a tick does; or `NoMemory`. The input comes back, and nothing
    /// changed.
    pub fn feed(&mut self, alloc: Global, input: Input) -> Result<(), (FeedFault, Input)>
        requires running { has_ended (story self.old) ≡ false }
        requires fits { AreFitFor (story self.old) (input ∷ []) }
        ensures fed { OnOk result (story self.new ≡ with_event (with_input (story self.old) input) Feed) }
        ensures may { OnOk result (feed_refusal self.old.budget (world_of (story self.old)) input ≡ None) }
        ensures cause { IfErr result (λ e. IsFeedFault (feed_refusal self.old.budget (world_of (story self.old)) input) e.0) }
        ensures back { IfErr result (λ e. e.1 ≡ input) }
        ensures own { OnOk result (story_desk (story self.new) 0 ≡ fed_desk (story self.old) input) }
        ensures err { OnErr result (self.new ≡ self.old) }
        ensures others { Others 0 (story self.old) (story self.new) }
    {
        let parts = &mut *self.parts;
        if let Some(why) = parts.state.pending.refusal(parts.budget, &input) {
            return Err((FeedFault::Not(why), input));
        }
        let Ok(()) = make_room(
            &mut parts.inputs,
            &mut parts.journal,
            parts.state.pending.out,
        ) else {
            return Err((FeedFault::NoMemory, input));
        };
        let Ok(()) = feed_input(alloc, &mut parts.state, &input) else {
            return Err((FeedFault::NoMemory, input));
        };
        parts.inputs.push_reserved(input);
        parts.journal.push_reserved(Event::Feed);
        Ok(())
    }
}
