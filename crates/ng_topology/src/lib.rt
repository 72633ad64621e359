//! The graph of nodes: the hooks of each, found by their names, and their links; the boxes of their types, at home or lent;
//! and the blank boxes that are left.
#![tactic(auto)]

mod entry;
mod graph;
pub mod hooks;
mod laws;
mod names;
mod places;
mod stock;

pub use entry::Entry;
pub use graph::{Graph, MakeFault};
pub use laws::{
    gives_are, lends_are, links_are, makes_are, retires_are, sets_are, soundness_stays, sprouts_are,
};
pub use places::Places;
pub use stock::Stock;
