// What an item carries, and the ways into and out of a node.
ghost use Rattle.std.specs.Prelude.{◌≡◌};
ghost use Rattle.ng_machine.specs.Body.{is_frame, is_writer, lane_of, writes_by_packets};

use ng_base::{Errno, Kind, LinkId, Name, NodeId, Packet};
use ng_message::{Msg, is_read_only};

/// Where a packet comes in.
#[derive(Clone, Copy, Debug, PartialEq, Eq)]
pub enum Door {
    /// By the wire of a port.
    Wire,
    /// By a hook.
    Hook(Name),
}

/// Where a packet leaves the graph.
#[derive(Clone, Copy, Debug, PartialEq, Eq)]
pub enum Exit {
    /// By the wire of a port.
    Wire,
    /// To the host that a port belongs to.
    Host,
    /// To the reader of the socket.
    Reader,
}

/// What keeps items of one node in order beside each other: two readers of one lane are applied in the
/// order in which they were accepted. That packets of one hook and messages of one sender keep their
/// order is this project's choice.
#[derive(Clone, Copy, Debug, PartialEq, Eq)]
pub enum Lane {
    /// The packets that come by this door.
    Door(Door),
    /// The messages that this node sends.
    Sender(NodeId),
}

/// What an item brings to its node.
///
/// A join of two hooks takes three steps, since its ends are hooks of two nodes: the order `connect` makes the
/// first end, `Join2` the second, and `Join3` lets the first send.
#[derive(Drop)]
pub enum Body {
    /// A packet that comes by a door. By a hook it has the number of the link that it came over.
    Frame {
        door: Door,
        link: Option<LinkId>,
        packet: Packet,
    },
    /// A control message.
    Msg(Msg),
    /// Makes the second end of a link: the hook of this name, whose peer is the hook `peer_hook` of `peer`.
    Join2 {
        hook: Name,
        link: LinkId,
        peer: NodeId,
        peer_hook: Name,
    },
    /// Joins the first end of a link, since the second is made.
    Join3 {
        hook: Name,
        link: LinkId,
    },
    /// Takes the first end of a link away, since the second was refused or its node went: with this
    /// error.
    Undo {
        hook: Name,
        link: LinkId,
        errno: Errno,
    },
    /// Takes a hook away, since its peer went.
    Leave {
        hook: Name,
        link: LinkId,
    },
    /// Gives a hook another peer and a new link, since the node between them went.
    Rebind {
        hook: Name,
        old: LinkId,
        new: LinkId,
        peer: NodeId,
        peer_hook: Name,
    },
    /// So many seconds went by.
    Tick(u32),
    /// A bridge is to learn that the host of this address is behind the link of this hook.
    Learn {
        hook: Name,
        link: LinkId,
        addr: [u8; 6],
    },
}

/// Whether a packet changes the state of a node of the kind.
fn writes_by_packets(kind: Kind) -> bool
    ensures { result ≡ writes_by_packets kind }
{
    match kind {
        Kind::One2many => true,
        Kind::Hub
        | Kind::Hole
        | Kind::Echo
        | Kind::Tee
        | Kind::Split
        | Kind::Bridge
        | Kind::Vlan
        | Kind::Patch
        | Kind::Bpf
        | Kind::Ether
        | Kind::Socket
        | Kind::Etf
        | Kind::Macset => false,
    }
}

impl Body {
    /// Whether it is a packet.
    pub fn is_frame(&self) -> bool
        ensures { result ≡ is_frame self.now }
    {
        match self {
            Body::Frame { .. } => true,
            Body::Msg(_)
            | Body::Join2 { .. }
            | Body::Join3 { .. }
            | Body::Undo { .. }
            | Body::Leave { .. }
            | Body::Rebind { .. }
            | Body::Tick(_)
            | Body::Learn { .. } => false,
        }
    }

    /// Whether a node of the kind has to be alone for it. A packet does not want a node alone, unless the kind
    /// deals packets out by turns; a message does, unless its number says that it reads; all
    /// else does. netgraph(4): readers and writers of a node.
    pub fn is_writer(&self, kind: Kind) -> bool
        ensures { result ≡ is_writer kind self.now }
    {
        match self {
            Body::Frame { .. } => writes_by_packets(kind),
            Body::Msg(msg) => !is_read_only(msg.header.cmd),
            Body::Join2 { .. }
            | Body::Join3 { .. }
            | Body::Undo { .. }
            | Body::Leave { .. }
            | Body::Rebind { .. }
            | Body::Tick(_)
            | Body::Learn { .. } => true,
        }
    }

    /// What keeps it in order beside other readers of its node: the door of a packet and the sender of
    /// a message. What else there is has no lane, since it is alone with its node.
    pub fn lane(&self) -> Option<Lane>
        ensures { result ≡ lane_of self.now }
    {
        match self {
            Body::Frame { door, .. } => Some(Lane::Door(*door)),
            Body::Msg(msg) => Some(Lane::Sender(msg.from)),
            Body::Join2 { .. }
            | Body::Join3 { .. }
            | Body::Undo { .. }
            | Body::Leave { .. }
            | Body::Rebind { .. }
            | Body::Tick(_)
            | Body::Learn { .. } => None,
        }
    }
}
