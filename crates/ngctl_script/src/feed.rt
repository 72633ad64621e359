//! The list of inputs of a run: commands by their marks, packets by their times, and ticks of the clock between them.
mod arrival;
mod commands;
mod examples;
mod list;
mod merge;
mod queue;

pub use arrival::Arrival;
pub use examples::{
    between_example, half_second_example, long_tick_example, no_packet_example, odd_example,
    one_time_example, two_ports_example,
};
pub use list::inputs;
