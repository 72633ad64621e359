//! The text of a run, put into a sink: a command's line, a refusal, a packet at the socket, the summary and the line of a
//! port; the answers of `list`, `show` and `types`; and the captures that leave.
#![tactic(auto)]

mod dump;
mod line;
pub mod listing;
mod port;
mod stop;
mod summary;
mod told;
pub mod whole;

pub use line::put_line;
pub use port::print_port;
pub use stop::PrintStop;
pub use summary::print_summary;
pub use told::{print_frame, print_line, print_refused};
