//! What the calls of the program share: the files that they read and the faults of them, the lines that tell a fault, and how
//! any call ends.
#![tactic(auto)]

mod ended;
pub mod ending;
mod found;
mod laws;
mod line;
mod made;
mod names;
mod parse;
mod read;
mod stopped;

pub use ended::{Ended, Fault, Which};
pub use found::{ReadIn, ReadScript, cuts_of};
pub use laws::made_is_in_form;
pub use line::{capture_words, fault_line, fault_words, named, script_words};
pub use made::read_made;
pub use names::port_names;
pub use read::{read_files, read_ports, read_script_file};
pub use stopped::is_stopped;
