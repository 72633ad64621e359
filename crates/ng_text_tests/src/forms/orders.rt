// Orders and answers that were put together by hand from the structures of ng_message.h.
use ng_base::{Bytes, Errno, Kind, Name, NodeId};
use ng_machine::asking::{Order, hook_list, name_list, node_info, read_order, type_list};
use ng_message::{GENERIC_COOKIE, Header, LinkInfo, Msg, NodeInfo, VERSION, generic, put_name};
use std::alloc::Global;
use std::test::Fail;

fn message(cmd: u32, args: Vec<u8>) -> Msg {
    Msg {
        from: NodeId(1),
        header: Header {
            version: VERSION,
            spare: 0,
            spare2: 0,
            arglen: 0,
            cmd,
            flags: 0,
            token: 1,
            typecookie: GENERIC_COOKIE,
            cmdstr: [0; 32],
        },
        args: Bytes(args),
    }
}

fn names(alloc: Global, texts: &[&str]) -> Result<Vec<u8>, Fail> {
    let mut args = Vec::new(alloc);
    for text in texts {
        put_name(&mut args, Some(&Name::read(text.as_bytes())?))?;
    }
    Ok(args)
}

// mkpeer . echo a b, and the two ways in which a message of that number is no order.
#[test]
fn an_order_is_read(rt: HostRuntime) -> Result<(), Fail> {
    let order = Order::Mkpeer {
        kind_name: Name::read(b"echo")?,
        ourhook: Name::read(b"a")?,
        peerhook: Name::read(b"b")?,
    };
    let rows: [(u32, &[&str], Result<Order, Errno>); 3] = [
        (generic::MKPEER, &["echo", "a", "b"], Ok(order)),
        (generic::MKPEER, &["echo", "a"], Err(Errno::INVAL)),
        (generic::TEXT_STATUS, &[], Err(Errno::OPNOTSUPP)),
    ];
    for (number, words, want) in rows {
        let args = names(rt.alloc(), words)?;
        assert_eq!(rt; read_order(&message(number, args)), want);
    }
    Ok(())
}

// A node with a hook.
fn node(name: &[u8], kind: Kind, id: u32) -> Result<NodeInfo, Fail> {
    Ok(NodeInfo {
        name: Some(Name::read(name)?),
        kind: Some(kind),
        id: NodeId(id),
        hooks: 1,
    })
}

// Whether an answer has so many bytes, and these from the place on.
fn has_bytes(answer: &[u8], len: usize, at: usize, bytes: &[u8]) -> bool {
    answer.len() == len && answer.get(at..).is_some_and(|rest| rest.starts_with(bytes))
}

// A bridge br0 with the number 4, whose link0 leads to the lower of em0 with the number 2.
#[test]
fn answers_about_a_node_are_laid_out(rt: HostRuntime) -> Result<(), Fail> {
    let bridge = node(b"br0", Kind::Bridge, 4)?;
    let info = node_info(rt.alloc(), &bridge)?;
    assert!(rt; has_bytes(&info, 72, 32, b"bridge\0\0"));
    assert!(rt; has_bytes(&info, 72, 64, &[4, 0, 0, 0, 1, 0, 0, 0]));
    let link = LinkInfo {
        ourhook: Name::read(b"link0")?,
        peerhook: Name::read(b"lower")?,
        peer: node(b"em0", Kind::Ether, 2)?,
    };
    let hooks = hook_list(rt.alloc(), &bridge, &[link])?;
    assert!(rt; has_bytes(&hooks, 208, 104, b"lower\0"));
    Ok(())
}

// The same two nodes, and two types.
#[test]
fn lists_are_laid_out(rt: HostRuntime) -> Result<(), Fail> {
    let nodes = [
        node(b"em0", Kind::Ether, 2)?,
        node(b"br0", Kind::Bridge, 4)?,
    ];
    let names = name_list(rt.alloc(), &nodes)?;
    assert!(rt; has_bytes(&names, 148, 0, b"\x02\0\0\0em0\0"));
    let types = type_list(rt.alloc(), &[(Kind::Hub, 0), (Kind::Socket, 1)])?;
    assert!(rt; has_bytes(&types, 76, 0, b"\x02\0\0\0hub\0"));
    assert!(rt; has_bytes(&types, 76, 72, &[1, 0, 0, 0]));
    Ok(())
}
