//! One place through which shared state passes from thread to thread. The state isn't locked: it
//! travels. A seat takes it out of the place, has it alone, and puts it back, and the pass of each
//! seat says meanwhile what only that seat may change.
#![tactic(auto)]

mod backoff;
mod desked;
mod held;
mod pass;
mod rule;
mod turn;

pub use backoff::Backoff;
pub use desked::Desked;
pub use held::Held;
pub use pass::Pass;
pub use turn::Turn;
