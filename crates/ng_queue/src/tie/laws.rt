//! What keeps the tie. Each function does nothing: its contract is the law.

ghost use Rattle.ng_queue.specs.tie.TieLaws.{PushTies, TakeTies, BackTies, DoneTies, PurgeTies, LeastIsNext, CountsLeave};

/// An item that is accepted stands last, in the list and in its node's queue.
pub fn push_ties()
    ensures { PushTies }
{}

/// An item that is taken goes out of its node's queue.
pub fn take_ties()
    ensures { TakeTies }
{}

/// An item that is put back stands at its place.
pub fn back_ties()
    ensures { BackTies }
{}

/// An item that is applied is gone, from the list and from its node's queue.
pub fn done_ties()
    ensures { DoneTies }
{}

/// Where a queue is emptied, the items of its node are gone from the list.
pub fn purge_ties()
    ensures { PurgeTies }
{}

/// The least head that can be taken is the least item that may be taken, and there is one exactly where one may be taken.
pub fn least_is_next()
    ensures { LeastIsNext }
{}

/// A count of the pending items falls by one where one that counts leaves, and stays otherwise.
pub fn counts_leave()
    ensures { CountsLeave }
{}
