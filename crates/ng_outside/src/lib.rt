//! The outside of a program: files that are read and written by name, a sink that bytes are put into,
//! each with a count of its faults, in memory and for real, and a gate before the work on an item.
#![tactic(auto)]

mod failed;
mod files;
mod gate;
mod memory_files;
mod memory_sink;
mod real_files;
mod real_sink;
mod sink;
mod whole;
mod written;

pub use failed::Failed;
pub use files::Files;
pub use gate::{Gate, OpenGate};
pub use memory_files::{MemFile, MemFiles};
pub use memory_sink::MemSink;
pub use real_files::StdFiles;
pub use real_sink::StdSink;
pub use sink::{Sink, put_all};
pub use whole::{ReadStop, read_whole};
pub use written::write_file;
