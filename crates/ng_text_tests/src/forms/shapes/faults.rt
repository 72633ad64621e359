// Bytes that are too few or too many.
use super::U8;
use ng_shape::{BytesFault, CountField, Field, Shape, read_bytes};
use std::test::Fail;

/// An integer, a string, an address, an integer behind a stretch of padding, a structure that has padding
/// at its end, and a counted array.
const MIXED: Shape = Shape::Struct(&[
    field!("n", Shape::Hex(16)),
    field!("b", Shape::Str(5)),
    field!("c", Shape::Ether),
    field!(
        "d",
        Shape::Struct(&[field!("e", Shape::Int(32)), field!("f", U8)])
    ),
    field!("m", Shape::UInt(32)),
    field!("g", counted!(CountField::Own("m"), 9, &Shape::UInt(16))),
]);

/// Two elements, and everything else is zeros.
const BYTES: [u8; 36] = [
    0, 0, 0, 0, 0, 0, 0, 0, 0, 0, 0, 0, 0, 0, 0, 0, 0, 0, 0, 0, 0, 0, 0, 0, 2, 0, 0, 0, 0, 0, 0, 0,
    0, 0, 0, 0,
];

#[test]
fn faults(rt: HostRuntime) {
    for (from, need) in [
        (0, 2),
        (2, 7),
        (7, 13),
        (13, 17),
        (17, 18),
        (18, 21),
        (21, 24),
        (24, 28),
        (28, 30),
        (30, 32),
    ] {
        for had in from..need {
            let bytes = BYTES.get(..had).unwrap_or(&[]);
            assert_eq!(rt;
                read_bytes(rt.alloc(), &MIXED, bytes).err(),
                Some(BytesFault::Short { need, had })
            );
        }
    }
    for more in [0, 1, 4] {
        let bytes = BYTES.get(..32 + more).unwrap_or(&[]);
        let fault = (more > 0).then_some(BytesFault::Trailing(more));
        assert_eq!(rt; read_bytes(rt.alloc(), &MIXED, bytes).err(), fault);
    }
}

#[test]
fn faults_print(rt: HostRuntime) -> Result<(), Fail> {
    for (fault, text) in [
        (
            BytesFault::Short { need: 8, had: 1 },
            "1 bytes, where 8 are needed",
        ),
        (BytesFault::Trailing(3), "3 bytes left over"),
        (BytesFault::NoMemory, "out of memory"),
    ] {
        let printed = format!(in rt.alloc(); "{fault}")?;
        assert_eq!(rt; printed.as_str(), text);
    }
    Ok(())
}
