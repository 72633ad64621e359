// Messages of ng_one2many(4).
ghost use Rattle.std.specs.Prelude.{◌≡◌, map};
ghost use Rattle.ng_table.specs.Message.{message_of};
ghost use Rattle.ng_table.specs.One2many.{one2many_messages};

use super::{NOTHING, U8, U32, U64};
use crate::Row;
use crate::macros::{row, structure};
use ng_message::{HAS_ANSWER, READ_ONLY};
use ng_shape::Shape;

// A number of a link; -1 is the hook `one`.
const LINK: Shape = Shape::Int(32);

const CONFIG: Shape =
    structure!("xmitAlg": U32, "failAlg": U32, "enabledLinks": Shape::Array(64, &U8));

const STATS: Shape = structure!(
    "recvOctets": U64,
    "recvPackets": U64,
    "xmitOctets": U64,
    "xmitPackets": U64,
    "memoryFailures": U64,
);

static ROWS: [Row; 5] = [
    row!("setconfig", 1, CONFIG => NOTHING),
    row!("getconfig", 2 + READ_ONLY + HAS_ANSWER, NOTHING => CONFIG),
    row!("getstats", 3 + HAS_ANSWER, LINK => STATS),
    row!("clrstats", 4, LINK => NOTHING),
    row!("getclrstats", 5 + HAS_ANSWER, LINK => STATS),
];

pub(crate) fn rows() -> &'static [Row]
    ensures { map message_of result.now ≡ one2many_messages }
{
    &ROWS
}
