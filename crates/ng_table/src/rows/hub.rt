// Messages of ng_hub(4).
ghost use Rattle.std.specs.Prelude.{◌≡◌, map};
ghost use Rattle.ng_table.specs.Message.{message_of};
ghost use Rattle.ng_table.specs.Hub.{hub_messages};

use super::NOTHING;
use crate::Row;
use crate::macros::row;

static ROWS: [Row; 1] = [row!("setpersistent", 1, NOTHING => NOTHING)];

pub(crate) fn rows() -> &'static [Row]
    ensures { map message_of result.now ≡ hub_messages }
{
    &ROWS
}
