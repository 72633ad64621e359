//! Worked examples, by computation: each function does nothing, and its contract is what a journal gives.

ghost use Rattle.ng_machine_tests.specs.Examples.{EchoExample, RefusedExample, JoinedExample, PastExample, AgainExample, ShutdownExample, UndoneExample, ItselfExample, NamesExample, RoundExample, LimitsExample, BypassExample, TypesExample, RefusalsExample, AllowedExample, TicksExample, QuestionsExample, DroppedExample, UnjoinedExample};

/// 1. A packet comes back from an echo.
pub fn echo_example()
    ensures { EchoExample }
{}

/// 2. A connect whose second end is there already is refused, and its first end goes again.
pub fn refused_example()
    ensures { RefusedExample }
{}

/// 3. Between the steps of a connect the first end is there and not joined.
pub fn joined_example()
    ensures { JoinedExample }
{}

/// 4. While one seat holds the last step of a connect, another seat's packet waits at its node.
pub fn past_example()
    ensures { PastExample }
{}

/// 5. A Leave with an old link does nothing, and a packet by a hook that is gone is dropped.
pub fn again_example()
    ensures { AgainExample }
{}

/// 6. A shutdown drops what waits at its node, and what is sent there afterwards is lost.
pub fn shutdown_example()
    ensures { ShutdownExample }
{}

/// 7. A connect whose second step is dropped with its node is undone.
pub fn undone_example()
    ensures { UndoneExample }
{}

/// 8. A node joined to itself is shut down, and its hook's name is used again.
pub fn itself_example()
    ensures { ItselfExample }
{}

/// 9. Names that are refused.
pub fn names_example()
    ensures { NamesExample }
{}

/// 10. The Stop drops what waits at the limit of applied items.
pub fn round_example()
    ensures { RoundExample }
{}

/// 11. The limits of waiting packets and of what leaves.
pub fn limits_example()
    ensures { LimitsExample }
{}

/// 12. A tee that is shut down leaves its peers joined to each other.
pub fn bypass_example()
    ensures { BypassExample }
{}

/// 13. Messages of types.
pub fn types_example()
    ensures { TypesExample }
{}

/// 14. Refusals, each with its error.
pub fn refusals_example()
    ensures { RefusalsExample }
{}

/// 15. What is allowed and what isn't.
pub fn allowed_example()
    ensures { AllowedExample }
{}

/// 16. Ports, their hosts and ticks.
pub fn ticks_example()
    ensures { TicksExample }
{}

/// 17. Questions are answered in bytes.
pub fn questions_example()
    ensures { QuestionsExample }
{}

/// 18. An order that is dropped with its node is told so.
pub fn dropped_example()
    ensures { DroppedExample }
{}

/// 19. What is sent out of a hook that isn't joined yet is lost.
pub fn unjoined_example()
    ensures { UnjoinedExample }
{}
