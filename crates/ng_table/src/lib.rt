//! The table of control messages: the messages that each type of node knows and those that all know, with their names,
//! numbers, arguments and answers; and how a message is read by its name.
#![tactic(auto)]

mod cookie;
mod find;
mod laws;
mod macros;
pub mod reading;
mod row;
mod rows;

pub use cookie::cookie_of;
pub use find::{find_name, find_number};
pub use laws::{
    numbers_and_names_differ, numbers_tell_of_answers, rows_are_found, shapes_are_shapes,
};
pub use row::Row;
