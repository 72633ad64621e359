//! The call of a replay: reads a script, captures and a journal, and judges whether the journal is one of their run; then it
//! writes the text of that run.
#![tactic(auto)]

mod ended;
mod fault;
pub mod judge;
mod judging;
mod line;
mod reading;
mod text;
mod top;

pub use ended::{Given, ReplayFault, Replayed};
pub use line::replay_fault_line;
pub use top::ngreplay;
