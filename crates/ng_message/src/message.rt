// A control message, as a value.
use ng_base::{Bytes, NodeId};

/// The bytes of a header.
pub const HEADER_LEN: usize = 56;

/// What stands before a message's arguments, field by field in the order of its bytes (`struct
/// ng_mesg` of netgraph(4)). A number of more than one byte has its lowest byte first.
#[derive(Clone, Copy, Debug, PartialEq, Eq)]
pub struct Header {
    /// The version of this layout: 8.
    pub version: u8,
    /// Not used; kept as it came.
    pub spare: u8,
    /// Not used; kept as it came.
    pub spare2: u16,
    /// How many bytes of arguments follow the header.
    pub arglen: u32,
    /// The number of the command, among those of the cookie.
    pub cmd: u32,
    /// Whether this is an answer, and what else netgraph(4) says of a message.
    pub flags: u32,
    /// A number that the sender chose; an answer has that of what it answers.
    pub token: u32,
    /// Which type of node, or the generic part of netgraph(4), the command's number belongs to.
    pub typecookie: u32,
    /// The command's name, ended by a NUL.
    pub cmdstr: [u8; 32],
}

/// A control message: who sent it, its header and its arguments. Who sent it is no part of its bytes.
#[derive(Debug, Drop)]
pub struct Msg {
    /// The node that sent it.
    pub from: NodeId,
    /// The header.
    pub header: Header,
    /// The arguments, laid out as the command wants them.
    pub args: Bytes,
}
