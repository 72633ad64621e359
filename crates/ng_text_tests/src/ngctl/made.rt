// The workload of a few packets.
use ngctl_script::make::make;
use std::test::Fail;

#[test]
fn two_packets_are_made(rt: HostRuntime) -> Result<(), Fail> {
    let made = make(rt.alloc(), 2)?;
    let [first, second, third] = made.captures.as_slice() else {
        return Err(Fail::from("not three captures"));
    };
    assert_eq!(rt; first.0.len(), 24 + 2 * (16 + 64));
    assert_eq!(rt; (second.0.len(), third.0.len()), (24, 24));
    assert_eq!(rt; made.ports.as_slice().len(), 3);
    assert!(rt;
        made.script
            .0
            .as_slice()
            .starts_with(b"mkpeer em0: hub lower a\nname em0:lower h\n")
    );
    Ok(())
}

// The head of the second packet: a microsecond, 64 bytes, and the tag of VLAN 1.
#[test]
fn second_packet_is_as_written(rt: HostRuntime) -> Result<(), Fail> {
    let made = make(rt.alloc(), 2)?;
    let [first, ..] = made.captures.as_slice() else {
        return Err(Fail::from("no capture"));
    };
    let bytes = first.0.as_slice();
    let Some(head) = bytes.get(104..140) else {
        return Err(Fail::from("too short"));
    };
    let wanted = [
        0, 0, 0, 0, 232, 3, 0, 0, 64, 0, 0, 0, 64, 0, 0, 0, 2, 0, 0, 0, 0, 1, 2, 0, 0, 0, 0, 2,
        0x81, 0, 0, 1, 8, 0, 9, 0,
    ];
    assert_eq!(rt; head, wanted.as_slice());
    Ok(())
}
