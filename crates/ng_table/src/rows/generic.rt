// Messages that all nodes know: ng_message.h, netgraph(4), "Standard control messages".
ghost use Rattle.std.specs.Prelude.{◌≡◌, map};
ghost use Rattle.ng_table.specs.Message.{message_of};
ghost use Rattle.ng_table.specs.Generic.{generic_messages};

use super::{NAME, NOTHING, U32};
use crate::Row;
use crate::macros::{row, structure};
use ng_message::{HAS_ANSWER, READ_ONLY};
use ng_shape::{CountField, Shape};

// The most nodes or hooks that a list has.
const MOST_LISTED: u32 = 8_192;

// The most types that a list has.
const MOST_TYPES: u32 = 64;

// NG_PATHSIZ.
const PATH: Shape = Shape::Str(512);

const MKPEER: Shape = structure!("type": NAME, "ourhook": NAME, "peerhook": NAME);

const CONNECT: Shape = structure!("path": PATH, "ourhook": NAME, "peerhook": NAME);

const RENAME: Shape = structure!("name": NAME);

const RMHOOK: Shape = structure!("ourhook": NAME);

const NODE_INFO: Shape = structure!("name": NAME, "type": NAME, "id": Shape::Hex(32), "hooks": U32);

const LINK_INFO: Shape = structure!("ourhook": NAME, "peerhook": NAME, "nodeinfo": NODE_INFO);

const LINKS: Shape = Shape::Counted {
    by: CountField::Inside("nodeinfo", "hooks"),
    max: MOST_LISTED,
    element: &LINK_INFO,
};

const HOOK_LIST: Shape = structure!("nodeinfo": NODE_INFO, "linkinfo": LINKS);

const NODES: Shape = Shape::Counted {
    by: CountField::Own("numnames"),
    max: MOST_LISTED,
    element: &NODE_INFO,
};

const NODE_LIST: Shape = structure!("numnames": U32, "nodeinfo": NODES);

const TYPE_INFO: Shape = structure!("type_name": NAME, "numnodes": U32);

const TYPES: Shape = Shape::Counted {
    by: CountField::Own("numtypes"),
    max: MOST_TYPES,
    element: &TYPE_INFO,
};

const TYPE_LIST: Shape = structure!("numtypes": U32, "typeinfo": TYPES);

static ROWS: [Row; 14] = [
    row!("shutdown", 1, NOTHING => NOTHING),
    row!("mkpeer", 2, MKPEER => NOTHING),
    row!("connect", 3, CONNECT => NOTHING),
    row!("name", 4, RENAME => NOTHING),
    row!("rmhook", 5, RMHOOK => NOTHING),
    row!("nodeinfo", 6 + READ_ONLY + HAS_ANSWER, NOTHING => NODE_INFO),
    row!("listhooks", 7 + READ_ONLY + HAS_ANSWER, NOTHING => HOOK_LIST),
    row!("listnames", 8 + READ_ONLY + HAS_ANSWER, NOTHING => NODE_LIST),
    row!("listnodes", 9 + READ_ONLY + HAS_ANSWER, NOTHING => NODE_LIST),
    row!("listtypes", 10 + READ_ONLY + HAS_ANSWER, NOTHING => TYPE_LIST),
    row!("textstatus", 11 + READ_ONLY + HAS_ANSWER, NOTHING => NOTHING),
    row!("binary2ascii", 12 + READ_ONLY + HAS_ANSWER, NOTHING => NOTHING),
    row!("ascii2binary", 13 + READ_ONLY + HAS_ANSWER, NOTHING => NOTHING),
    row!("textconfig", 14, NOTHING => NOTHING),
];

pub(crate) fn rows() -> &'static [Row]
    ensures { map message_of result.now ≡ generic_messages }
{
    &ROWS
}
