//! The laws of every run, and what they need of the types of nodes. Each function does nothing: its
//! contract is the law.

ghost use Rattle.ng_machine.specs.Laws.{RunIs, Once, InOrder, WriterAlone, TakenOnce, WholeTakesNothing, Retired, Serial, PlainIsThere, PlainIsOne, PlainIsOrderly};
ghost use Rattle.ng_machine.specs.Lawful.{OrderlyIsLawful};
ghost use Rattle.ng_machine.specs.RunLaws.{StaysOut, SpentTakesNothing, ByItsTaker};
ghost use Rattle.ng_machine.specs.KnownRun.{RunsAreKnown};
ghost use Rattle.ng_machine.specs.LowRun.{RunsAreLow};
ghost use Rattle.ng_machine.specs.Refusal.{FeedsUnlessRefused};
ghost use Rattle.ng_machine.specs.Tests.{OrderlyByTest};
ghost use Rattle.ng_machine.specs.KindObligations.{ReadersPreserve, KindsStay, AbsorbingPreserves, RefusedLeaves};
ghost use Rattle.ng_machine.specs.Sound.{CutUndoes};
ghost use Rattle.ng_machine.specs.SoundStates.{StatesStaySound};
ghost use Rattle.ng_machine.specs.Bounds.{LinksAreFew, PacketsAreBounded};

/// A reader makes and retires no node, and leaves its node's name, hooks and plan as they are.
pub fn readers_preserve()
    ensures { ReadersPreserve }
{}

/// No item changes the kind of its node.
pub fn kinds_stay()
    ensures { KindsStay }
{}

/// An input may be fed exactly where nothing in the table of refusals holds.
pub fn feeds_unless_refused()
    ensures { FeedsUnlessRefused }
{}

/// The test of a journal is the condition: a journal is orderly exactly where the test says so.
pub fn orderly_by_test()
    ensures { OrderlyByTest }
{}

/// The world of a run is reached event by event.
pub fn run_is()
    ensures { RunIs }
{}

/// Each number that was given is that of one item, which is done, dropped or pending, and no item is applied
/// twice.
pub fn once()
    ensures { Once }
{}

/// Of two items of a node that may not be worked on side by side, the later is applied after the earlier.
pub fn in_order()
    ensures { InOrder }
{}

/// Where a writer is taken nothing else of its node is, and while an item is taken its node stays as it was.
pub fn writer_alone()
    ensures { WriterAlone }
{}

/// An item is taken by one seat at most, and a seat has one item at most.
pub fn taken_once()
    ensures { TakenOnce }
{}

/// Where a journal is whole, ended by a Stop or with nothing left to do, nothing is taken.
pub fn whole_takes_nothing()
    ensures { WholeTakesNothing }
{}

/// Once a node is gone, nothing is accepted for it and nothing of it is applied.
pub fn retired()
    ensures { Retired }
{}

/// Each item that is applied is free: what came before it at its node and waits reads, and has another lane.
pub fn serial()
    ensures { Serial }
{}

/// An orderly journal keeps the laws: each item is accounted for and applied once at most, each node's items in order,
/// writers alone, nodes still while an item is taken, nothing for a node that is gone, and each applied item free.
pub fn orderly_is_lawful()
    ensures { OrderlyIsLawful }
{}

/// From each beginning there is a plain journal.
pub fn plain_is_there()
    ensures { PlainIsThere }
{}

/// From one beginning there is no other plain journal.
pub fn plain_is_one()
    ensures { PlainIsOne }
{}

/// The plain journal is orderly.
pub fn plain_is_orderly()
    ensures { PlainIsOrderly }
{}

/// A hook that is cut right after it was made leaves the state as it was before.
pub fn cut_undoes()
    ensures { CutUndoes }
{}

/// What is counted changes nothing that a plan holds.
pub fn absorbing_preserves()
    ensures { AbsorbingPreserves }
{}

/// A message that is refused changes nothing.
pub fn refused_leaves()
    ensures { RefusedLeaves }
{}

/// What comes of one packet is no longer than the longest packet, and is at most one packet for each hook and link, or
/// one for each of 64 links.
pub fn packets_are_bounded()
    ensures { PacketsAreBounded }
{}

/// What a part keeps by hooks is always kept of hooks that are there.
pub fn states_stay_sound()
    ensures { StatesStaySound }
{}

/// A hook brings at most one link, and nothing else brings any: so a bridge sends a packet out of no more links than
/// hooks were made.
pub fn links_are_few()
    ensures { LinksAreFew }
{}

/// From its Take to its Back or Apply an item is pending, and taken by that seat.
pub fn stays_out()
    ensures { StaysOut }
{}

/// Where the applied items are as many as may be, nothing is taken.
pub fn spent_takes_nothing()
    ensures { SpentTakesNothing }
{}

/// An item comes back or is applied by the seat that took it last.
pub fn by_its_taker()
    ensures { ByItsTaker }
{}

/// In each world of a run over inputs that fit: what a command waits for is the last command's, peers have numbers that were
/// given, the wire leads to ethers, and no packet that waits, was told or left is longer than the longest.
pub fn runs_are_known()
    ensures { RunsAreKnown }
{}

/// In each world of a run that applies at most ten million items, over inputs that fit, no number comes near the end of its
/// type: of items, nodes, links, losses, and packets fed, left and handed to hosts.
pub fn runs_are_low()
    ensures { RunsAreLow }
{}
