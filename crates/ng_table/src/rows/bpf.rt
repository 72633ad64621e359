// Messages of ng_bpf(4).
ghost use Rattle.std.specs.Prelude.{◌≡◌, map};
ghost use Rattle.ng_table.specs.Message.{message_of};
ghost use Rattle.ng_table.specs.Bpf.{bpf_messages};

use super::{NAME, NOTHING, U8, U16, U32, U64};
use crate::Row;
use crate::macros::{row, structure};
use ng_message::{HAS_ANSWER, READ_ONLY};
use ng_shape::{CountField, Shape};

// An instruction of bpf(4).
const INSTRUCTION: Shape = structure!("code": U16, "jt": U8, "jf": U8, "k": U32);

const INSTRUCTIONS: Shape = Shape::Counted {
    by: CountField::Own("bpf_prog_len"),
    max: 512,
    element: &INSTRUCTION,
};

// The program of a hook, and where packets go that match and that don't.
const PROGRAM: Shape = structure!(
    "thisHook": NAME,
    "ifMatch": NAME,
    "ifNotMatch": NAME,
    "bpf_prog_len": U32,
    "bpf_prog": INSTRUCTIONS,
);

const STATS: Shape = structure!(
    "recvFrames": U64,
    "recvOctets": U64,
    "recvMatchFrames": U64,
    "recvMatchOctets": U64,
    "xmitFrames": U64,
    "xmitOctets": U64,
);

static ROWS: [Row; 5] = [
    row!("setprogram", 1, PROGRAM => NOTHING),
    row!("getprogram", 2 + READ_ONLY + HAS_ANSWER, NAME => PROGRAM),
    row!("getstats", 3 + HAS_ANSWER, NAME => STATS),
    row!("clrstats", 4, NAME => NOTHING),
    row!("getclrstats", 5 + HAS_ANSWER, NAME => STATS),
];

pub(crate) fn rows() -> &'static [Row]
    ensures { map message_of result.now ≡ bpf_messages }
{
    &ROWS
}
