// What follows from the definitions alone.
ghost use Rattle.ng_queue.specs.Takeable.{FreeIsTakeable, TakeableIsFree};

/// Where a queue holds nothing back, its head may be taken.
pub fn free_is_takeable()
    ensures { FreeIsTakeable }
{}

/// A queue holds nothing back where its head may be taken.
pub fn takeable_is_free()
    ensures { TakeableIsFree }
{}
