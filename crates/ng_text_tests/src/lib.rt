//! Tests of everything that is read and printed: frames and filters, names, addresses, shapes, messages, scripts, captures,
//! journals and text.
#![tactic(auto)]

#[cfg(test)]
mod bpf;
pub mod forms;
#[cfg(test)]
mod frame;
pub mod ngctl;
