//! The words of command lines: of a run, of a replay and of a forecast.
//!
//! The words don't hold the program's name. They are read from the left; options are short, each with one value.
#![tactic(auto)]

mod forecast;
mod lists;
mod names;
mod options;
mod port;
mod ports;
mod replay;
mod run;
mod together;
mod words;

pub use forecast::read_forecast_words;
pub use port::{FileName, PortForm, PortWord};
pub use replay::read_replay_words;
pub use run::read_words;
pub use words::{ForecastWords, ReplayWords, Source, Words};
