// Messages of ng_bridge(4).
ghost use Rattle.std.specs.Prelude.{◌≡◌, map};
ghost use Rattle.ng_table.specs.Message.{message_of};
ghost use Rattle.ng_table.specs.Bridge.{bridge_messages};

use super::{NAME, NOTHING, U8, U16, U32, U64};
use crate::Row;
use crate::macros::{row, structure};
use ng_message::{HAS_ANSWER, READ_ONLY};
use ng_shape::{CountField, Shape};

const CONFIG: Shape = structure!(
    "debugLevel": U8,
    "loopTimeout": U32,
    "maxStaleness": U32,
    "minStableAge": U32,
);

// What is counted of one link.
const STATS: Shape = structure!(
    "recvOctets": U64,
    "recvPackets": U64,
    "recvMulticasts": U64,
    "recvBroadcasts": U64,
    "recvUnknown": U64,
    "recvRunts": U64,
    "recvInvalid": U64,
    "xmitOctets": U64,
    "xmitPackets": U64,
    "xmitMulticasts": U64,
    "xmitBroadcasts": U64,
    "loopDrops": U64,
    "loopDetects": U64,
    "memoryFailures": U64,
);

const HOST: Shape = structure!("addr": Shape::Ether, "hook": NAME, "age": U16, "staleness": U16);

const HOSTS: Shape = Shape::Counted {
    by: CountField::Own("numHosts"),
    max: 4_096,
    element: &HOST,
};

const TABLE: Shape = structure!("numHosts": U32, "hosts": HOSTS);

static ROWS: [Row; 8] = [
    row!("setconfig", 1, CONFIG => NOTHING),
    row!("getconfig", 2 + READ_ONLY + HAS_ANSWER, NOTHING => CONFIG),
    row!("reset", 3, NOTHING => NOTHING),
    row!("getstats", 4 + HAS_ANSWER, U32 => STATS),
    row!("clrstats", 5, U32 => NOTHING),
    row!("getclrstats", 6 + HAS_ANSWER, U32 => STATS),
    row!("gettable", 7 + HAS_ANSWER, NOTHING => TABLE),
    row!("setpersistent", 8, NOTHING => NOTHING),
];

pub(crate) fn rows() -> &'static [Row]
    ensures { map message_of result.now ≡ bridge_messages }
{
    &ROWS
}
