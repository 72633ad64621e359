//! What holds of every sound story. Each function does nothing: its contract is the law.

ghost use Rattle.ng_workers.specs.Ending.{RanIsOrderly, RanIsWhole};

/// A run by seats of threads, from the beginning of a core on, is an orderly journal of all inputs, and whole; and the run over
/// all of them ends where the core stands.
pub fn ran_is_whole()
    ensures { RanIsWhole }
{}

/// The journal of a run by seats of threads in which memory ran out is orderly over all inputs, as far as it goes.
pub fn ran_is_orderly()
    ensures { RanIsOrderly }
{}
