// Messages of ng_tee(4).
ghost use Rattle.std.specs.Prelude.{◌≡◌, map};
ghost use Rattle.ng_table.specs.Message.{message_of};
ghost use Rattle.ng_table.specs.Tee.{tee_messages};

use super::{NOTHING, U64};
use crate::Row;
use crate::macros::{row, structure};
use ng_message::HAS_ANSWER;
use ng_shape::Shape;

// What is counted of one hook.
const HOOK_STATS: Shape =
    structure!("inOctets": U64, "inFrames": U64, "outOctets": U64, "outFrames": U64);

const STATS: Shape = structure!(
    "right": HOOK_STATS,
    "left": HOOK_STATS,
    "right2left": HOOK_STATS,
    "left2right": HOOK_STATS,
);

static ROWS: [Row; 3] = [
    row!("getstats", 1 + HAS_ANSWER, NOTHING => STATS),
    row!("clrstats", 2, NOTHING => NOTHING),
    row!("getclrstats", 3 + HAS_ANSWER, NOTHING => STATS),
];

pub(crate) fn rows() -> &'static [Row]
    ensures { map message_of result.now ≡ tee_messages }
{
    &ROWS
}
