//! A counter that seats add to by turns: the worked example of `ng_turn`.
mod counter;
mod seats;
#[cfg(test)]
mod tests;
mod visits;

pub use counter::{Counter, Desk};
pub use seats::{add_times, counted_by, pass_round, six, spread};
pub use visits::{visit, visit_together};
