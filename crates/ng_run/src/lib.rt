//! The call of a run: reads what the words name, runs it, and writes its text, the captures that leave
//! and its journal.
#![tactic(auto)]

mod making;
mod text;
mod top;
mod write;

pub use top::ngrun;
