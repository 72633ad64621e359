//! What calls do to desks. Each function does nothing: its contract is the law.

ghost use Rattle.ng_machine.specs.story.DeskLaws.{TakeTells, BackTells, ApplyTells, FeedTells, CloseTells, GiveUpTells, JobsStand};

/// A seat that takes an item has the job that the item's node asks for; every other desk stays.
pub fn take_tells()
    ensures { TakeTells }
{}

/// A seat that puts its item back has no job; every other desk stays.
pub fn back_tells()
    ensures { BackTells }
{}

/// A seat that applies its item has no job; every other desk stays.
pub fn apply_tells()
    ensures { ApplyTells }
{}

/// The first seat's desk has the input that is fed; every other desk stays.
pub fn feed_tells()
    ensures { FeedTells }
{}

/// The first seat's desk has the end of the core; every other desk stays.
pub fn close_tells()
    ensures { CloseTells }
{}

/// The desk of a seat that gives up says so; every other desk stays.
pub fn give_up_tells()
    ensures { GiveUpTells }
{}

/// What the desk of a seat says of an item's node is so now, whatever other seats did since the item was taken.
pub fn jobs_stand()
    ensures { JobsStand }
{}
