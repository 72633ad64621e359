//! The callers of the core. The module `pool` has those that need no thread: the work on an item, and runs of one seat. The
//! rest are seats that work on one core from threads: seat 0 feeds the inputs, and each seat takes items and applies them.
//! The core goes from seat to seat, and the work on an item is done while nobody waits for it.
#![tactic(auto)]

mod attending;
mod driving;
mod feeder;
mod feeding;
mod holding;
mod laws;
mod next;
pub mod pool;
mod running;
mod step;
mod working;

pub use driving::drive;
pub use laws::{ran_is_orderly, ran_is_whole};
pub use running::run_workers;
pub use working::worker;
