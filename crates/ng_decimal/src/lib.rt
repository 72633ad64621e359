//! Numbers as words: decimal digits without a sign, and without a zero in front of others.
#![tactic(auto)]

mod decimal;
mod laws;

pub use decimal::read_decimal;
pub use laws::{digits_are_read, read_are_digits};
