//! Shapes of structures, the values that stand in them, and how these lie in bytes.
#![tactic(auto)]

mod decoding;
mod fault;
mod fields;
mod laws;
mod layout;
mod members;
mod shape;
mod sound;
mod tree;

pub use decoding::read_bytes;
pub use fault::BytesFault;
pub use fields::{field_number, fields_inside, shape_named};
pub use laws::{canonical_is_layout, fitting_is_canonical, fitting_is_given_back};
pub use layout::lay_out;
pub use members::{find_count, find_field, find_member};
pub use shape::{CountField, Field, Shape};
pub use sound::{is_shape, is_word_byte};
pub use tree::{Member, Tree};
