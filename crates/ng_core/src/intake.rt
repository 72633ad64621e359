//! What feeding an input does to the machine's world as it is kept: a command is told and asks for what it asks for, a packet
//! comes by a port, and time passes at bridges.
mod asked;
mod asking;
mod decided;
mod feeding;
mod leading;
mod ticking;

pub use feeding::feed_input;
