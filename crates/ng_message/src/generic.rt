//! The numbers of the generic messages, which all nodes know (ng_message.h; netgraph(4), "Standard
//! control messages"). Those that ask have the bits [`READ_ONLY`] and [`HAS_ANSWER`].

use crate::{HAS_ANSWER, READ_ONLY};

/// Removes the node (`NGM_SHUTDOWN`).
pub const SHUTDOWN: u32 = 1;

/// Makes a node and joins it to a new hook of this one (`NGM_MKPEER`).
pub const MKPEER: u32 = 2;

/// Joins a new hook to a new hook of another node (`NGM_CONNECT`).
pub const CONNECT: u32 = 3;

/// Gives the node its name (`NGM_NAME`).
pub const NAME: u32 = 4;

/// Removes a hook (`NGM_RMHOOK`).
pub const RMHOOK: u32 = 5;

/// Asks for the node's name, type, number and joined hooks (`NGM_NODEINFO`).
pub const NODEINFO: u32 = READ_ONLY + HAS_ANSWER + 6;

/// Asks for the node's hooks and their peers (`NGM_LISTHOOKS`).
pub const LISTHOOKS: u32 = READ_ONLY + HAS_ANSWER + 7;

/// Asks for the nodes that have a name (`NGM_LISTNAMES`).
pub const LISTNAMES: u32 = READ_ONLY + HAS_ANSWER + 8;

/// Asks for all nodes (`NGM_LISTNODES`).
pub const LISTNODES: u32 = READ_ONLY + HAS_ANSWER + 9;

/// Asks for the types of nodes (`NGM_LISTTYPES`).
pub const LISTTYPES: u32 = READ_ONLY + HAS_ANSWER + 10;

/// Asks for the node's status as text (`NGM_TEXT_STATUS`).
pub const TEXT_STATUS: u32 = READ_ONLY + HAS_ANSWER + 11;

/// Asks for the text of a message's arguments (`NGM_BINARY2ASCII`).
pub const BINARY2ASCII: u32 = READ_ONLY + HAS_ANSWER + 12;

/// Asks for the arguments that a text stands for (`NGM_ASCII2BINARY`).
pub const ASCII2BINARY: u32 = READ_ONLY + HAS_ANSWER + 13;

/// Sets what the node's type takes as text (`NGM_TEXT_CONFIG`).
pub const TEXT_CONFIG: u32 = 14;
