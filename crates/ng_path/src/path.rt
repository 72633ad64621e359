// What an address says.
use crate::Hooks;
use ng_base::{Name, NodeId};

/// Where an address begins.
#[derive(Clone, Copy, Debug, PartialEq, Eq)]
pub enum Head {
    /// At the node on which the address is used: `.`, or no node part at all.
    Local,
    /// At the node of that name.
    Named(Name),
    /// At the node of that number, which an address writes in hexadecimal digits between brackets.
    Id(NodeId),
}

/// An address: the node where it begins, and the hooks along which one walks from there, each at the
/// node that the one before it leads to. It borrows the bytes that it was read from.
#[derive(Debug, Drop)]
pub struct Path<'a> {
    /// Where it begins.
    pub head: Head,
    /// The hooks from there on, in order.
    pub hooks: Hooks<'a>,
}
