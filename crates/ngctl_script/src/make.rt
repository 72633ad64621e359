//! A workload from a number: a script, and captures of three ports.
mod made;

pub use made::{Made, make};
