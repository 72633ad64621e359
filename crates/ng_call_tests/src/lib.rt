//! Tests of the calls that start a run, a replay or a forecast, where they go by more than words and files: moves that
//! are chosen, files and outputs that fail, gates, and packets that are foretold.
#![tactic(auto)]

pub mod chosen;
#[cfg(test)]
mod fakes;
#[cfg(test)]
mod forecasts;
#[cfg(test)]
mod replays;
#[cfg(test)]
mod runs;
