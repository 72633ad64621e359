//! The core: the machine's world in use by seats. Every call is an event of its journal, whatever seats call it in whatever
//! order, and its type keeps the journal orderly. The module `intake` is what feeding an input does.
#![tactic(auto)]

mod applying;
mod counting;
mod ending;
mod fault;
mod feeding;
pub mod intake;
mod machine;
mod making;
mod serving;
mod showing;
mod still;
mod stopping;
mod taking;

pub use fault::FeedFault;
pub use machine::Core;
pub use ng_core_state::{Done, Work};
pub use ng_machine::{Fed, Input};
pub use still::Still;
