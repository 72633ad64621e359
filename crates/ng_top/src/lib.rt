//! The top call: a run, a replay or a forecast, by the first word.
#![tactic(auto)]

mod top;

pub use top::{Ran, behind_first, ngtop};
