//! Worked items: their modes and lanes, what plans make of packets, and how items wait.
#[cfg(test)]
mod hooks;
#[cfg(test)]
mod lanes;
#[cfg(test)]
mod memory;
#[cfg(test)]
mod plans;
#[cfg(test)]
mod queues;
