//! Callers of the core that need no thread: the work on what a seat took, a run of one seat that does one thing after another,
//! and a run of moves that are chosen beforehand.
mod choosing;
mod laws;
mod making;
mod moves;
mod plainly;
mod serving;
mod unfed;
mod working;

pub use choosing::chosen;
pub use laws::{jobs_are_workable, partly_is_orderly, plainly_is_plain, plainly_is_whole};
pub use moves::{Chosen, Move};
pub use plainly::plain;
pub use unfed::Unfed;
pub use working::work;
