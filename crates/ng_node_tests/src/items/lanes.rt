// Tables of modes and lanes.
use ng_base::{Bytes, Errno, Kind, LinkId, Name, NodeId, Packet};
use ng_machine::{Body, Door, Exit, Lane};
use ng_message::{GENERIC_COOKIE, Header, Msg};
use std::alloc::Global;
use std::test::Fail;

/// A message of that number from a node.
fn message(alloc: Global, from: u32, number: u32) -> Msg {
    Msg {
        from: NodeId(from),
        header: Header {
            version: 8,
            spare: 0,
            spare2: 0,
            arglen: 0,
            cmd: number,
            flags: 0,
            token: 1,
            typecookie: GENERIC_COOKIE,
            cmdstr: [0; 32],
        },
        args: Bytes(Vec::new(alloc)),
    }
}

#[test]
fn packets_write_where_a_kind_deals_them_out_by_turns(rt: HostRuntime) -> Result<(), Fail> {
    let frame = Body::Frame {
        door: Door::Wire,
        link: None,
        packet: Packet::new(rt.alloc(), &[1])?,
    };
    assert!(rt; frame.is_frame());
    for (kind, writes) in [
        (Kind::Hub, false),
        (Kind::Hole, false),
        (Kind::Echo, false),
        (Kind::Tee, false),
        (Kind::Split, false),
        (Kind::One2many, true),
        (Kind::Bridge, false),
        (Kind::Vlan, false),
        (Kind::Patch, false),
        (Kind::Bpf, false),
        (Kind::Ether, false),
        (Kind::Socket, false),
        (Kind::Etf, false),
        (Kind::Macset, false),
    ] {
        assert_eq!(rt; frame.is_writer(kind), writes);
    }
    Ok(())
}

#[test]
fn messages_read_by_their_number(rt: HostRuntime) {
    let order = Body::Msg(message(rt.alloc(), 1, 1));
    let question = Body::Msg(message(rt.alloc(), 1, 0x3000_0006));
    for kind in Kind::ALL {
        assert!(rt; order.is_writer(kind));
        assert!(rt; !question.is_writer(kind));
    }
    assert!(rt; !order.is_frame());
}

#[test]
fn steps_of_a_join_want_the_node_alone(rt: HostRuntime) -> Result<(), Fail> {
    let hook = Name::read(b"a")?;
    let link = LinkId(1);
    let peer = NodeId(2);
    for body in [
        Body::Join2 {
            hook,
            link,
            peer,
            peer_hook: hook,
        },
        Body::Join3 { hook, link },
        Body::Undo {
            hook,
            link,
            errno: Errno(6),
        },
        Body::Leave { hook, link },
        Body::Rebind {
            hook,
            old: link,
            new: LinkId(2),
            peer,
            peer_hook: hook,
        },
        Body::Tick(1),
        Body::Learn {
            hook,
            link,
            addr: [2, 0, 0, 0, 0, 10],
        },
    ] {
        assert!(rt; body.is_writer(Kind::Hub));
        assert!(rt; !body.is_frame());
        assert_eq!(rt; body.lane(), None);
    }
    Ok(())
}

#[test]
fn lanes_are_doors_and_senders(rt: HostRuntime) -> Result<(), Fail> {
    let door = Door::Hook(Name::read(b"a")?);
    let frame = Body::Frame {
        door,
        link: Some(LinkId(1)),
        packet: Packet::new(rt.alloc(), &[])?,
    };
    assert_eq!(rt; frame.lane(), Some(Lane::Door(door)));
    assert!(rt; frame.lane() != Some(Lane::Door(Door::Wire)));
    let question = Body::Msg(message(rt.alloc(), 7, 0x3000_0006));
    assert_eq!(rt; question.lane(), Some(Lane::Sender(NodeId(7))));
    assert!(rt; Exit::Wire != Exit::Host);
    Ok(())
}
