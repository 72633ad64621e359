//! The call of a trace: reads a script, captures and a journal, and judges whether the journal is one of their run; then it
//! writes which packets reached nothing, and where their copies ended.
#![tactic(auto)]

mod fault;
mod line;
mod reading;
mod top;
mod words;

pub use line::trace_fault_line;
pub use top::ngtrace;
pub use words::{TraceWords, read_trace_words};
