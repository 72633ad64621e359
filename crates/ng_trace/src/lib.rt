//! Why packets are lost: a journal is followed, and of each packet that came in it is noted whether a copy of it left, and where
//! its copies ended.
#![tactic(auto)]

mod arrived;
mod ending;
mod following;
mod lines;
mod looking;
mod noting;
mod rows;
mod running;
mod sums;
mod text;
mod tracing;
mod watched;
mod watching;
mod words;

pub use arrived::{Arrived, arrivals};
pub use ending::{Came, Ending, Label, Place, Spot};
pub use rows::Row;
pub use running::trace_run;
pub use sums::NodeSum;
pub use text::trace_text;
pub use tracing::trace;
pub use watched::{Journey, Watched};
pub use watching::watch;
