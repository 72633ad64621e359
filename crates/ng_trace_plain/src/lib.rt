//! The trace of the run of no workers: the run is made, and the journal that it writes is traced.
#![tactic(auto)]

mod copies;
mod making;
mod plainly;

pub use plainly::trace_plainly;
