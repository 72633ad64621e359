//! Laws of every run that stand on the table of messages and on the text: what is answered, that all which is told can be
//! printed, and that a graph that stands still sends packets by their ways alone.
#![tactic(auto)]

pub mod answers;
pub mod printable;
pub mod still_graph;
