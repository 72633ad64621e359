//! The call of a forecast: reads what the words name, runs the commands in front of every mark, and tells where each packet
//! of the captures leaves the graph that stands then, without running the packets.
#![tactic(auto)]

mod bag;
mod ended;
mod hooks;
mod laws;
mod line;
mod read;
pub mod spread;
mod stand;
mod text;
mod top;

pub use ended::{Forecast, ForecastFault, Source, Spread};
pub use laws::forecasts_come_true;
pub use line::forecast_fault_line;
pub use top::ngforecast;
