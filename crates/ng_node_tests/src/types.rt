//! Worked packets and messages at nodes of the fourteen types.
#[cfg(test)]
mod bench;
#[cfg(test)]
mod bpf;
#[cfg(test)]
mod bridge;
#[cfg(test)]
mod edges;
#[cfg(test)]
mod fields;
#[cfg(test)]
mod filters;
#[cfg(test)]
mod one2many;
#[cfg(test)]
mod patch;
#[cfg(test)]
mod simple;
#[cfg(test)]
mod steps;
#[cfg(test)]
mod stock;
#[cfg(test)]
mod tee;
#[cfg(test)]
mod vlan;
