//! Journals: the events of a run as they are kept, in eight bytes each, and a journal as a file: a head, and a line for each
//! event.
#![tactic(auto)]

mod fault;
mod front;
pub mod kept;
mod laws;
mod reading;
mod split;
mod writing;

pub use fault::JournalFault;
pub use laws::{read_was_written, written_is_read};
pub use reading::read_journal;
pub use writing::put_journal;
