// Messages of macset, a type of this project's own.
ghost use Rattle.std.specs.Prelude.{◌≡◌, map};
ghost use Rattle.ng_table.specs.Message.{message_of};
ghost use Rattle.ng_table.specs.Macset.{macset_messages};

use super::{NOTHING, U32, U64};
use crate::Row;
use crate::macros::{row, structure};
use ng_message::{HAS_ANSWER, READ_ONLY};
use ng_shape::{CountField, Shape};

const ADDRESS: Shape = Shape::Ether;

const ADDRESSES: Shape = Shape::Counted {
    by: CountField::Own("n"),
    max: 4_096,
    element: &ADDRESS,
};

const TABLE: Shape = structure!("n": U32, "addr": ADDRESSES);

const STATS: Shape = structure!("knownFrames": U64, "otherFrames": U64);

static ROWS: [Row; 4] = [
    row!("add", 1, ADDRESS => NOTHING),
    row!("del", 2, ADDRESS => NOTHING),
    row!("gettable", 3 + READ_ONLY + HAS_ANSWER, NOTHING => TABLE),
    row!("getstats", 4 + HAS_ANSWER, NOTHING => STATS),
];

pub(crate) fn rows() -> &'static [Row]
    ensures { map message_of result.now ≡ macset_messages }
{
    &ROWS
}
