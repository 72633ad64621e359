// What follows of an item and waits by itself.
ghost use Rattle.std.specs.Prelude.{◌≡◌, ◌<◌, ◌^◌, true, length, None};
ghost use Rattle.ng_machine.specs.Generic.{answer_to};
ghost use Rattle.ng_core_state.specs.service.Followers.{accepts_of, followed_by, is_short, learned_by, target_by, target_of};

use ng_base::{Bytes, NodeId};
use ng_machine::{Body, Door, Item};
use ng_message::{ANSWER_FLAG, Msg};

/// An item that is to be accepted beside the packets that are sent: an answer, or what a bridge is to learn.
#[derive(Drop)]
pub struct Follower {
    /// The node that it is for.
    pub to: NodeId,
    /// What it brings.
    pub body: Body,
    /// The number of the command that waits for it, if one does.
    pub tag: Option<u32>,
}

// What a packet is to make its own node learn.
fn learning(at: NodeId, body: &Body, learn: Option<[u8; 6]>) -> Option<Follower>
    ensures accepts { accepts_of result ≡ learned_by at body.now learn }
    ensures target { target_of result ≡ target_by at body.now learn None }
{
    match (body, learn) {
        (
            Body::Frame {
                door: Door::Hook(hook),
                link: Some(link),
                ..
            },
            Some(addr),
        ) => Some(Follower {
            to: at,
            body: Body::Learn {
                hook: *hook,
                link: *link,
                addr,
            },
            tag: None,
        }),
        _ => None,
    }
}

// The answer of a message, from the node that it was for.
fn answer_to(from: NodeId, msg: &Msg, bytes: Bytes) -> Msg
    requires { length bytes < 2 ^ 32 }
    ensures { result ≡ answer_to from msg.now bytes }
{
    let mut header = msg.header;
    header.arglen = bytes.0.len() as u32;
    header.flags = ANSWER_FLAG;
    Msg {
        from,
        header,
        args: bytes,
    }
}

/// What follows of an item and waits by itself.
pub fn follower_of(item: &Item, learn: Option<[u8; 6]>, reply: Option<Bytes>) -> Option<Follower>
    requires { is_short reply ≡ true }
    ensures accepts { accepts_of result ≡ followed_by item.now item.now.body learn reply }
    ensures target { target_of result ≡ target_by item.now.to item.now.body learn reply }
{
    let Body::Msg(msg) = &item.body else {
        return learning(item.to, &item.body, learn);
    };
    match reply {
        Some(bytes) => Some(Follower {
            to: msg.from,
            body: Body::Msg(answer_to(item.to, msg, bytes)),
            tag: item.tag,
        }),
        None => None,
    }
}
