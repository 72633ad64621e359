//! The events of a run, kept in eight bytes each.
mod events;
mod journal;
mod short;

pub use events::Events;
pub use journal::Journal;
