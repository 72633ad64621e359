//! Scripts of the commands of ngctl(8), with marks that say when a command is fed; the list of inputs of a script and of
//! captures; and a workload that is made from a number.
#![tactic(auto)]

mod bytes;
mod fault;
pub mod feed;
mod forms;
mod laws;
mod lines;
pub mod make;
mod marks;
mod read;
mod reading;
mod refusal;
mod script;
mod verb;
mod when;
mod words;

pub use fault::ScriptFault;
pub use laws::commands_are_in_order;
pub use read::read_script;
pub use refusal::Refusal;
pub use script::Script;
pub use verb::Verb;
pub use when::When;
