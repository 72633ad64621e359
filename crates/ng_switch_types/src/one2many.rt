//! ng_one2many(4): the type of node that deals the packets of one hook out to many, and brings those of the many to the one.
mod dealing;
mod messages;
mod node;
mod one2many;
mod rows;

pub use node::{One2manyNode, blank_one2many};
