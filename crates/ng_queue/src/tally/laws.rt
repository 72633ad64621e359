//! What the numbers say of the world. Each function does nothing: its contract is the law.

ghost use Rattle.ng_queue.specs.tally.Feeding.{CountsRefuse};
ghost use Rattle.ng_queue.specs.tally.TallyLaws.{CountsAreLow, CountsAreOfWorld};

/// The numbers are those of the world, through each change of it.
pub fn counts_are_of_world()
    ensures { CountsAreOfWorld }
{}

/// In each world of a run the numbers are far below the ends of their types.
pub fn counts_are_low()
    ensures { CountsAreLow }
{}

/// The numbers refuse an input where the machine does, and for the same cause.
pub fn counts_refuse()
    ensures { CountsRefuse }
{}
