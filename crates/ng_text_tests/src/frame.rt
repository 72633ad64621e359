use ng_frame::{CUSTOMER_TAG, NoMemory, SERVICE_TAG, untag, with_tag, without_tag};
use std::test::Fail;

/// Addresses 01 to 06 and 07 to 0c, and the ethertype 08 00.
const PLAIN: [u8; 14] = [1, 2, 3, 4, 5, 6, 7, 8, 9, 10, 11, 12, 8, 0];

/// Tags as IEEE 802.1Q lays them out. GOOSE (IEC 61850-8-1) has by default priority 4 and no VLAN,
/// PROFINET (IEC 61784-2) priority 6 and no VLAN.
#[test]
fn tags_of_public_formats(rt: HostRuntime) {
    let cases: [(&str, [u8; 18], Option<(u16, [u8; 2])>); 7] = [
        (
            "IPv4 in VLAN 32",
            [
                0x00, 0x60, 0x08, 0x9f, 0xb1, 0xf3, 0x00, 0x40, 0x05, 0x40, 0xef, 0x24, 0x81, 0x00,
                0x00, 0x20, 0x08, 0x00,
            ],
            Some((32, [0x08, 0x00])),
        ),
        (
            "GOOSE, priority 4 and no VLAN",
            [
                0x01, 0x0c, 0xcd, 0x01, 0x00, 0x00, 0x00, 0x30, 0xa7, 0x00, 0x00, 0x01, 0x81, 0x00,
                0x80, 0x00, 0x88, 0xb8,
            ],
            Some((0, [0x88, 0xb8])),
        ),
        (
            "PROFINET, priority 6 and no VLAN",
            [
                0x00, 0x0e, 0x8c, 0x00, 0x00, 0x02, 0x00, 0x0e, 0x8c, 0x00, 0x00, 0x01, 0x81, 0x00,
                0xc0, 0x00, 0x88, 0x92,
            ],
            Some((0, [0x88, 0x92])),
        ),
        (
            "every bit of tag control information",
            [
                1, 2, 3, 4, 5, 6, 7, 8, 9, 10, 11, 12, 0x81, 0x00, 0xff, 0xff, 0x86, 0xdd,
            ],
            Some((4095, [0x86, 0xdd])),
        ),
        (
            "one tag behind another",
            [
                1, 2, 3, 4, 5, 6, 7, 8, 9, 10, 11, 12, 0x81, 0x00, 0x01, 0x23, 0x81, 0x00,
            ],
            Some((0x123, [0x81, 0x00])),
        ),
        (
            "a service tag of a provider",
            [
                1, 2, 3, 4, 5, 6, 7, 8, 9, 10, 11, 12, 0x88, 0xa8, 0x00, 0x05, 0x08, 0x00,
            ],
            None,
        ),
        (
            "81 01 is no tag",
            [
                1, 2, 3, 4, 5, 6, 7, 8, 9, 10, 11, 12, 0x81, 0x01, 0x00, 0x05, 0x08, 0x00,
            ],
            None,
        ),
    ];
    for (name, frame, tag) in cases {
        assert_eq!(rt; untag(&frame, CUSTOMER_TAG), tag, "{name}");
    }
}

#[test]
fn tag_with_a_priority_is_left_out(rt: HostRuntime) -> Result<(), Fail> {
    let frame = [
        1, 2, 3, 4, 5, 6, 7, 8, 9, 10, 11, 12, 0x81, 0, 0x20, 5, 8, 0,
    ];
    assert_eq!(rt; untag(&frame, CUSTOMER_TAG), Some((5, [8, 0])));
    let Some((vlan, _)) = untag(&frame, CUSTOMER_TAG) else {
        return Err("no tag")?;
    };
    assert_eq!(rt; vlan, 5);
    let plain = without_tag(rt.alloc(), &frame, CUSTOMER_TAG)?;
    assert_eq!(rt; plain.as_slice(), PLAIN.as_slice());
    Ok(())
}

// Row by row: the TPID, and the control information of priority, drop eligible indicator and number.
#[test]
fn tag_is_inserted(rt: HostRuntime) -> Result<(), Fail> {
    let cases: [(u16, u16, [u8; 4]); 4] = [
        (CUSTOMER_TAG, 5, [0x81, 0x00, 0, 5]),
        (CUSTOMER_TAG, 0, [0x81, 0x00, 0, 0]),
        (CUSTOMER_TAG, 0xffff, [0x81, 0x00, 0xff, 0xff]),
        (SERVICE_TAG, 0x6005, [0x88, 0xa8, 0x60, 0x05]),
    ];
    for (kind, control, tag) in cases {
        let frame = with_tag(rt.alloc(), &PLAIN, kind, control)?;
        let tagged = [
            1, 2, 3, 4, 5, 6, 7, 8, 9, 10, 11, 12, tag[0], tag[1], tag[2], tag[3], 8, 0,
        ];
        assert_eq!(rt; frame.as_slice(), tagged.as_slice(), "{kind} {control}");
        assert_eq!(rt;
            untag(frame.as_slice(), kind),
            Some((control & 0x0fff, [8, 0]))
        );
    }
    Ok(())
}

#[test]
fn out_of_memory_has_a_text(rt: HostRuntime) -> Result<(), Fail> {
    let text = format!(in rt.alloc(); "{NoMemory}")?;
    assert_eq!(rt; text.as_str(), "out of memory");
    Ok(())
}
