//! Worked examples of the types of nodes, by computation: each function does nothing, and its contract is what a run gives.

ghost use Rattle.ng_machine_tests.specs.TypeExamples.{AgingExample, LearningExample, LoopingExample, SizesExample, NoLinksExample, BesideExample, ForgottenExample, ProgramExample, PatchingExample, DealingExample, TaggingExample, SplittingExample, CopyingExample, OrderExample, StayingExample, SortingExample, SiftingExample};

/// 1. A bridge between two ports learns where hosts are, and forwards.
pub fn learning_example()
    ensures { LearningExample }
{}

/// 2. A host that shows up on another link too soon makes that link mute.
pub fn looping_example()
    ensures { LoopingExample }
{}

/// 3. A runt is counted, and the longest packet passes.
pub fn sizes_example()
    ensures { SizesExample }
{}

/// 4. A link whose hook isn't there, and one that is none.
pub fn no_links_example()
    ensures { NoLinksExample }
{}

/// 5. Two frames of two links are worked on side by side, and each makes an item to learn by.
pub fn beside_example()
    ensures { BesideExample }
{}

/// 6. A host is learned and then forgotten with its link; by a hook that is gone nothing is learned.
pub fn forgotten_example()
    ensures { ForgottenExample }
{}

/// 7. A bpf sends on by its program's answer.
pub fn program_example()
    ensures { ProgramExample }
{}

/// 8. A patch adds 1 to a byte, and an operation past the packet's end changes nothing.
pub fn patching_example()
    ensures { PatchingExample }
{}

/// 9. A one2many tells its configuration, and deals packets out in turn.
pub fn dealing_example()
    ensures { DealingExample }
{}

/// 10. A vlan takes tags off and puts them on.
pub fn tagging_example()
    ensures { TaggingExample }
{}

/// 11. A split refuses what comes by out.
pub fn splitting_example()
    ensures { SplittingExample }
{}

/// 12. A tee copies, counts and clears, and leaves its peers joined to each other.
pub fn copying_example()
    ensures { CopyingExample }
{}

/// 13. What is counted may reach the state in another order than that of the packets.
pub fn order_example()
    ensures { OrderExample }
{}

/// 14. A hook that is gone can't be written to; what was set persistent stays without hooks.
pub fn staying_example()
    ensures { StayingExample }
{}

/// 15. An etf sorts frames by their ethertype.
pub fn sorting_example()
    ensures { SortingExample }
{}

/// 16. A macset sorts frames by their source.
pub fn sifting_example()
    ensures { SiftingExample }
{}

/// 17. Time at a bridge, and what it learns.
pub fn aging_example()
    ensures { AgingExample }
{}
