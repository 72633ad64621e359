//! How ngctl(8) prints the answers of `list`, `show` and `types`: a line for each node, hook and type.
mod fields;
mod lists;

pub use lists::{put_list, put_show, put_types};
