//! The pieces that every step of an applied item is made of, and what the run is after it.
mod changes;
mod ends;
mod laws;
mod pieces;
mod room;

pub use changes::{accept_at, drop_for_hook, refuse};
pub use ends::{add_half, add_joined, give_name, leave_end, rebind_end, settle_end, sprout};
pub use laws::items_are_applied;
pub use pieces::{finish, finish_accepted, finish_refused};
pub use room::{widen, widen_told};
