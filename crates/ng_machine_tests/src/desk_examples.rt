//! A worked example of desks, by computation: the function does nothing, and its contract is what is computed.

ghost use Rattle.ng_machine_tests.specs.DeskExamples.{DeskExample};

/// Two frames are worked on side by side, by what the plan held at each Take.
pub fn desk_example()
    ensures { DeskExample }
{}
