// Messages of ng_etf(4).
ghost use Rattle.std.specs.Prelude.{◌≡◌, map};
ghost use Rattle.ng_table.specs.Message.{message_of};
ghost use Rattle.ng_table.specs.Etf.{etf_messages};

use super::{NAME, NOTHING, U16, U32, U64};
use crate::Row;
use crate::macros::{row, structure};
use ng_message::{HAS_ANSWER, READ_ONLY};
use ng_shape::{CountField, Shape};

// The hook of an ethertype.
const FILTER: Shape = structure!("matchhook": NAME, "ethertype": U16);

const STATUS: Shape = structure!("inFrames": U64, "outFrames": U64);

const FILTERS: Shape = Shape::Counted {
    by: CountField::Own("n"),
    max: 4_096,
    element: &FILTER,
};

const TABLE: Shape = structure!("n": U32, "filter": FILTERS);

static ROWS: [Row; 3] = [
    row!("setfilter", 1, FILTER => NOTHING),
    row!("getstatus", 2 + HAS_ANSWER, NOTHING => STATUS),
    row!("gettable", 3 + READ_ONLY + HAS_ANSWER, NOTHING => TABLE),
];

pub(crate) fn rows() -> &'static [Row]
    ensures { map message_of result.now ≡ etf_messages }
{
    &ROWS
}
