// Messages of ng_ether(4).
ghost use Rattle.std.specs.Prelude.{◌≡◌, map};
ghost use Rattle.ng_table.specs.Message.{message_of};
ghost use Rattle.ng_table.specs.Ether.{ether_messages};

use super::{NOTHING, U32};
use crate::Row;
use crate::macros::row;
use ng_message::{HAS_ANSWER, READ_ONLY};

static ROWS: [Row; 4] = [
    row!("setpromisc", 1, U32 => NOTHING),
    row!("getpromisc", 2 + READ_ONLY + HAS_ANSWER, NOTHING => U32),
    row!("setautosrc", 3, U32 => NOTHING),
    row!("getautosrc", 4 + READ_ONLY + HAS_ANSWER, NOTHING => U32),
];

pub(crate) fn rows() -> &'static [Row]
    ensures { map message_of result.now ≡ ether_messages }
{
    &ROWS
}
