// A seat takes an item and applies it in one call.
ghost use Rattle.std.specs.Prelude.{◌≡◌, ◌<◌, true, false, IfOk, OnErr, OnOk};
ghost use Rattle.ng_machine.specs.Desk.{Idle};
ghost use Rattle.ng_machine.specs.Outcome.{nothing};
ghost use Rattle.ng_core.specs.CoreStory.{story};
ghost use Rattle.ng_core.specs.Served.{IsServedBy, NoReadNext};
ghost use Rattle.ng_machine.specs.story.Desks.{Others, story_job};
ghost use Rattle.ng_machine.specs.story.Story.{has_ended};

use crate::Core;
use ng_base::{Event, NoMemory};
use ng_core_state::service::serve;
use ng_machine::Outcome;
use ng_plan::node::Node;
use std::alloc::Global;

impl<B: Node> Core<B> {
    /// Takes, for a seat that has nothing, the item of the least number that may be taken, works on it and applies it, where it is
    /// a packet that a plan works on: whether it is. The journal has a take and an application more then, as after a call each.
    /// What the plan makes of it goes through `outcome`, which has nothing before and after, and keeps the memory of its lists.
    ///
    /// False exactly where `take` gives nothing, or anything but such a packet; nothing changed.
    ///
    /// # Errors
    /// `NoMemory` where memory ran out; nothing changed but the outcome, which may have anything.
    pub fn serve(
        &mut self,
        alloc: Global,
        seat: u32,
        outcome: &mut Outcome,
    ) -> Result<bool, NoMemory>
        requires seat { seat < self.old.seats }
        requires idle { story_job (story self.old) seat ≡ Idle }
        requires blank { outcome.old ≡ nothing }
        ensures served { IfOk result (λ served. served ≡ true → IsServedBy seat (story self.old) (story self.new)) }
        ensures running { IfOk result (λ served. served ≡ true → has_ended (story self.old) ≡ false) }
        ensures other { IfOk result (λ served. served ≡ false → (self.new ≡ self.old) × NoReadNext (story self.old)) }
        ensures idle { story_job (story self.new) seat ≡ Idle }
        ensures blank { OnOk result (outcome.new ≡ nothing) }
        ensures err { OnErr result (self.new ≡ self.old) }
        ensures others { Others seat (story self.old) (story self.new) }
    {
        if self.ended() || self.is_spent() {
            return Ok(false);
        }
        let parts = &mut *self.parts;
        parts.journal.reserve(parts.state.pending.out as usize + 3)?;
        let Some(id) = serve(alloc, &mut parts.state, seat, outcome)? else {
            return Ok(false);
        };
        parts.journal.push_reserved(Event::Take { id, seat });
        parts.journal.push_reserved(Event::Apply { id });
        Ok(true)
    }
}
