//! The machine's world as it is kept: the graph, what waits, what was told and what left; the pieces of a step, each the
//! machine's change of the world; and what the outcome of a packet or of a writer does.
#![tactic(auto)]

mod feeding;
mod handed;
mod home;
mod sending;
pub mod service;
mod state;
pub mod step;
mod taking;
mod telling;

pub use handed::{Done, Work};
pub use state::{Port, State};
