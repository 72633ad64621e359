//! Messages by their names: which message of a node a name and a text ask for.
mod reading;

pub use reading::{Found, read_message};
