// What a seat took is applied.
ghost use Rattle.std.specs.Prelude.{◌≡◌, false, IfOk, IfErr, OnOk, OnErr};
ghost use Rattle.ng_base.specs.declared.event.Event.TheVariants.{Apply};
ghost use Rattle.ng_machine.specs.Desk.{Idle};
ghost use Rattle.ng_machine.specs.World.{node_at};
ghost use Rattle.ng_core.specs.CoreStory.{story};
ghost use Rattle.ng_core_state.specs.step.Applied.{ComesOut};
ghost use Rattle.ng_machine.specs.story.Desks.{Gained, Others, story_job};
ghost use Rattle.ng_machine.specs.story.Story.{has_ended, with_event, world_of};
ghost use Rattle.ng_machine.specs.story.Work.{IsDone};
ghost use Rattle.ng_core_state.specs.Handed.{handed_with, item_done};

use crate::Core;
use ng_base::Event;
use ng_core_apply::apply;
use ng_core_state::Done;
use ng_plan::node::Node;
use std::alloc::Global;

impl<B: Node> Core<B> {
    /// Applies what the seat took, with what came of the work on it: the box of a node that goes by that.
    ///
    /// # Errors
    /// What was handed in, where memory ran out, and for nothing else; nothing changed.
    pub fn apply(&mut self, alloc: Global, seat: u32, done: Done<B>) -> Result<Option<B>, Done<B>>
        requires running { has_ended (story self.old) ≡ false }
        requires done { IsDone (story_job (story self.old) seat) (handed_with B.state done) }
        ensures applied { OnOk result (story self.new ≡ with_event (story self.old) (Apply (item_done done).id)) }
        ensures own { OnOk result (Gained seat (Apply (item_done done).id) Idle (story self.old) (story self.new)) }
        ensures out { IfOk result (ComesOut B.state (node_at (world_of (story self.old)) (item_done done).to) (node_at (world_of (story self.new)) (item_done done).to)) }
        ensures err { OnErr result (self.new ≡ self.old) }
        ensures back { IfErr result (λ it. it ≡ done) }
        ensures others { Others seat (story self.old) (story self.new) }
    {
        let id = done.id();
        let parts = &mut *self.parts;
        let out = match apply(alloc, &mut parts.state, done) {
            Ok(out) => out,
            Err(done) => return Err(done),
        };
        parts.journal.push_reserved(Event::Apply { id });
        Ok(out)
    }
}
