//! The whole text of a run, put into a sink in pieces, and the captures that leave.
mod answers;
mod captures;
mod commands;
mod help;
mod lines;
mod piece;
mod printable;
mod report;
mod text;
mod told;

pub use crate::{PrintStop, print_port, print_summary};
pub use captures::{capture_text, put_capture};
pub use printable::is_printable;
pub use report::{PortReport, Summary};
pub use text::print_text;
pub use told::print_told;
