// The inputs that are not fed yet.
ghost use Rattle.std.specs.Prelude.{◌≡◌, ◌∷◌, false, true, length, IfOk, OnErr};
ghost use Rattle.ng_machine.specs.Refusal.{feed_refusal};
ghost use Rattle.ng_machine.specs.SetUp.{is_traffic};
ghost use Rattle.ng_workers.specs.pool.Feeding.{IsFed, IsUnfed, begins_with_traffic};
ghost use Rattle.ng_core.specs.CoreStory.{story};
ghost use Rattle.ng_machine.specs.story.Desks.{Others, story_job};
ghost use Rattle.ng_machine.specs.story.Story.{AreFitFor, has_ended, world_of};

use ng_base::NoMemory;
use ng_core::{Core, FeedFault};
use ng_machine::Input;
use ng_plan::node::Node;
use std::alloc::Global;
use std::marker::Model;

// Whether an input is a packet or a tick, and no command.
fn is_traffic(input: &Input) -> bool
    ensures { result ≡ is_traffic input.now }
{
    match input {
        Input::Packet { .. } | Input::Tick { .. } => true,
        Input::Command(_) | Input::Late(_) => false,
    }
}

/// Inputs in their order, of which the next can be had and put back at once. They are kept the last one first.
#[derive(Drop)]
pub struct Unfed {
    backwards: Vec<Input>,
}

impl Model for Unfed {
    ghost use Rattle.std.specs.Prelude.{List, reverse};
    ghost use Rattle.ng_machine.specs.declared.input.Input.{Input as TheInput};

    ghost Value = { List TheInput };

    ghost view = { λ u. reverse u.backwards.items };
}

impl Unfed {
    /// The inputs, moved.
    pub fn new(mut inputs: Vec<Input>) -> Unfed
        ensures { result ≡ inputs.items }
    {
        inputs.reverse();
        Unfed { backwards: inputs }
    }

    /// How many there are.
    pub fn len(&self) -> usize
        ensures { result ≡ length self.now }
    {
        self.backwards.len()
    }

    /// Whether a packet or a tick is next.
    pub fn is_traffic_next(&self) -> bool
        ensures { result ≡ begins_with_traffic self.now }
    {
        match self.backwards.last() {
            Some(input) => is_traffic(input),
            None => false,
        }
    }

    /// The inputs, moved.
    pub fn into_inputs(self) -> Vec<Input>
        ensures { result.items ≡ self }
    {
        let mut inputs = self.backwards;
        inputs.reverse();
        inputs
    }

    /// Feeds the next input, where there is one and the machine feeds it now; else nothing changes.
    ///
    /// # Errors
    /// `NoMemory` where memory ran out; nothing changed.
    pub fn feed_next<B: Node>(
        &mut self,
        alloc: Global,
        core: &mut Core<B>,
    ) -> Result<bool, NoMemory>
        requires running { has_ended (story core.old) ≡ false }
        requires fits { AreFitFor (story core.old) self.old }
        ensures fed { IfOk result (λ fed. fed ≡ true → IsFed (story core.old) self.old (story core.new) self.new × (IsUnfed (story core.old) self.old → ⊥)) }
        ensures unfed { IfOk result (λ fed. fed ≡ false → (core.new ≡ core.old) × (self.new ≡ self.old) × IsUnfed (story core.old) self.old) }
        ensures err { OnErr result (core.new ≡ core.old) }
        ensures jobs { story_job (story core.new) 0 ≡ story_job (story core.old) 0 }
        ensures others { Others 0 (story core.old) (story core.new) }
    {
        let Some(input) = self.backwards.pop() else {
            return Ok(false);
        };
        match core.feed(alloc, input) {
            Ok(()) => Ok(true),
            Err((FeedFault::Not(_), input)) => {
                self.backwards.push_reserved(input);
                Ok(false)
            }
            Err((FeedFault::NoMemory, _)) => Err(NoMemory),
        }
    }
}
