//! What holds of every sound story. Each function does nothing: its contract is the law.

ghost use Rattle.ng_workers.specs.pool.Plainly.{PartlyIsOrderly, PlainlyIsPlain, PlainlyIsWhole};
ghost use Rattle.ng_workers.specs.pool.WorkLaws.{JobsAreWorkable};

/// What a seat works on can be worked on.
pub fn jobs_are_workable()
    ensures { JobsAreWorkable }
{}

/// A plain run of a core of one seat, from its beginning on, is the plain journal of all inputs, and whole.
pub fn plainly_is_plain()
    ensures { PlainlyIsPlain }
{}

/// A plain run of a core of any number of seats, from its beginning on, is an orderly journal of all inputs, and whole; and the
/// run over all of them ends where the core stands.
pub fn plainly_is_whole()
    ensures { PlainlyIsWhole }
{}

/// The journal of a plain run in which memory ran out is orderly over all inputs, as far as it goes.
pub fn partly_is_orderly()
    ensures { PartlyIsOrderly }
{}
