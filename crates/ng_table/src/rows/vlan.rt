// Messages of ng_vlan(4).
ghost use Rattle.std.specs.Prelude.{◌≡◌, map};
ghost use Rattle.ng_table.specs.Message.{message_of};
ghost use Rattle.ng_table.specs.Vlan.{vlan_messages};

use super::{NAME, NOTHING, U8, U16, U32};
use crate::Row;
use crate::macros::{row, structure};
use ng_message::{HAS_ANSWER, READ_ONLY};
use ng_shape::{CountField, Shape};

// The hook of a VLAN, its number, and the priority bits that its tags carry (IEEE 802.1Q).
const FILTER: Shape = structure!("hook": NAME, "vlan": U16, "pcp": U8, "cfi": U8);

const FILTERS: Shape = Shape::Counted {
    by: CountField::Own("n"),
    max: 4_096,
    element: &FILTER,
};

const TABLE: Shape = structure!("n": U32, "filter": FILTERS);

// The type of a tag: 0x8100, or 0x88a8.
const TAG_TYPE: Shape = Shape::Hex(32);

static ROWS: [Row; 5] = [
    row!("addfilter", 1, FILTER => NOTHING),
    row!("delfilter", 2, NAME => NOTHING),
    row!("gettable", 3 + READ_ONLY + HAS_ANSWER, NOTHING => TABLE),
    row!("settagtype", 4, TAG_TYPE => NOTHING),
    row!("gettagtype", 5 + READ_ONLY + HAS_ANSWER, NOTHING => TAG_TYPE),
];

pub(crate) fn rows() -> &'static [Row]
    ensures { map message_of result.now ≡ vlan_messages }
{
    &ROWS
}
