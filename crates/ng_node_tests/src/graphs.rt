//! Worked graphs of boxes of several types, changed step by step as orders change them.
#[cfg(test)]
mod boxes;
#[cfg(test)]
mod examples;
#[cfg(test)]
mod graph_at_rest;
#[cfg(test)]
mod steps;
