// Messages of ng_patch(4).
ghost use Rattle.std.specs.Prelude.{◌≡◌, map};
ghost use Rattle.ng_table.specs.Message.{message_of};
ghost use Rattle.ng_table.specs.Patch.{patch_messages};

use super::{NOTHING, U16, U32, U64};
use crate::Row;
use crate::macros::{row, structure};
use ng_message::{HAS_ANSWER, READ_ONLY};
use ng_shape::{CountField, Shape};

const OPERATION: Shape = structure!("offset": U32, "length": U16, "mode": U16, "value": U64);

const OPERATIONS: Shape = Shape::Counted {
    by: CountField::Own("count"),
    max: 128,
    element: &OPERATION,
};

const CONFIG: Shape = structure!("count": U32, "csum_flags": U32, "ops": OPERATIONS);

static ROWS: [Row; 2] = [
    row!("setconfig", 1, CONFIG => NOTHING),
    row!("getconfig", 2 + READ_ONLY + HAS_ANSWER, NOTHING => CONFIG),
];

pub(crate) fn rows() -> &'static [Row]
    ensures { map message_of result.now ≡ patch_messages }
{
    &ROWS
}
