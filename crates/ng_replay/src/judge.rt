//! Whether a journal is one of a run: a core is driven by its events, one after another, and each of them is allowed exactly
//! where the core does it.
mod closing;
mod following;
mod judging;
mod laws;
mod verdict;

pub use following::{follow, know_story, let_go};
pub use judging::{empty_hands, is_whole, judge};
pub use laws::{one_verdict, runs_are_accepted};
pub use verdict::Verdict;
