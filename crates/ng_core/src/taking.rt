// A seat takes an item, or puts it back.
ghost use Rattle.std.specs.Prelude.{◌≡◌, ℕ, ◌+◌, ◌<◌, ◌≤◌, false, length, nat_le, IfOk, IfSome, IfNone, OnErr};
ghost use Rattle.ng_base.specs.declared.event.Event.TheVariants.{Take, Back};
ghost use Rattle.ng_machine.specs.Desk.{Idle};
ghost use Rattle.ng_core.specs.CoreStory.{story};
ghost use Rattle.ng_machine.specs.story.Desks.{Gained, Others, story_desk, story_job};
ghost use Rattle.ng_machine.specs.story.Story.{NothingToTake, has_ended, run_state_of, with_event, world_of};
ghost use Rattle.ng_machine.specs.Run.{RunState};
ghost use Rattle.ng_queue.specs.pending.Holds.{with_untaken};
ghost use Rattle.ng_core.specs.Away.{IsAwayWith};
ghost use Rattle.ng_core_state.specs.Handed.{item_of, job_with};
ghost use Rattle.ng_core_state.specs.Stands.{Stands};

use crate::Core;
use ng_base::{Event, NoMemory};
use ng_core_state::{State, Work};
use ng_plan::node::Node;
use std::alloc::Global;

// What a seat took goes back to its place, and a box to its node.
fn put_back<B: Node>(state: &mut State<B>, work: Work<B>)
    requires work { (a : RunState) × Stands state.old a × IsAwayWith B.state a work }
    ensures { (a : RunState) → Stands state.old a → IsAwayWith B.state a work → Stands state.new (with_untaken a (item_of work).id.0) }
{
    match work {
        Work::Read { item, plan: _ } => state.back(item),
        Work::Write { item, node } => {
            state.graph.restore(item.to, node);
            state.back(item);
        }
        Work::Inside { item } => state.back(item),
    }
}

impl<B: Node> Core<B> {
    /// Applied and taken items together reach the limit.
    pub(crate) fn is_spent(&self) -> bool
        ensures { result ≡ nat_le self.now.budget ((world_of (story self.now)).applies + length (run_state_of (story self.now)).taken) }
    {
        let parts = &*self.parts;
        let pending = &parts.state.pending;
        pending.tally.applies >= parts.budget || pending.out >= parts.budget - pending.tally.applies
    }

    /// Takes, for a seat that has nothing, the item of the least number that may be taken.
    ///
    /// `None` exactly where the core has ended, or applied and taken items together reach the limit, or no item may be taken.
    ///
    /// # Errors
    /// `NoMemory` where memory ran out; nothing changed.
    pub fn take(&mut self, alloc: Global, seat: u32) -> Result<Option<Work<B>>, NoMemory>
        requires seat { seat < self.old.seats }
        requires idle { story_job (story self.old) seat ≡ Idle }
        ensures taken { IfOk result (λ o. IfSome o (λ work. story self.new ≡ with_event (story self.old) (Take seat (item_of work).id))) }
        ensures work { IfOk result (λ o. IfSome o (λ work. job_with B.state work ≡ story_job (story self.new) seat)) }
        ensures running { IfOk result (λ o. IfSome o (λ work. has_ended (story self.old) ≡ false)) }
        ensures none { IfOk result (λ o. IfNone o ((self.new ≡ self.old) × NothingToTake (story self.old))) }
        ensures own { IfOk result (λ o. IfSome o (λ work. Gained seat (Take seat (item_of work).id) (job_with B.state work) (story self.old) (story self.new))) }
        ensures err { OnErr result (self.new ≡ self.old) }
        ensures others { Others seat (story self.old) (story self.new) }
    {
        if self.ended() || self.is_spent() {
            return Ok(None);
        }
        let parts = &mut *self.parts;
        parts.journal.reserve(parts.state.pending.out as usize + 3)?;
        let Some(work) = parts.state.take(alloc, seat)? else {
            return Ok(None);
        };
        parts.journal.push_reserved(Event::Take {
            id: work.id(),
            seat,
        });
        Ok(Some(work))
    }

    /// Puts back what the seat took. It takes no memory.
    pub fn back(&mut self, seat: u32, work: Work<B>)
        requires running { has_ended (story self.old) ≡ false }
        requires own { job_with B.state work ≡ story_job (story self.old) seat }
        ensures back { story self.new ≡ with_event (story self.old) (Back (item_of work).id) }
        ensures own { Gained seat (Back (item_of work).id) Idle (story self.old) (story self.new) }
        ensures others { Others seat (story self.old) (story self.new) }
    {
        let id = work.id();
        let parts = &mut *self.parts;
        put_back(&mut parts.state, work);
        parts.journal.push_reserved(Event::Back { id });
    }
}
