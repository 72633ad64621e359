// The rows of each type of node, in files of their own.
ghost use Rattle.std.specs.Prelude.{◌≡◌, map};
ghost use Rattle.ng_table.specs.Message.{message_of};
ghost use Rattle.ng_table.specs.Table.{messages_of};

mod bpf;
mod bridge;
mod etf;
mod ether;
pub(crate) mod generic;
mod hub;
mod macset;
mod one2many;
mod patch;
mod tee;
mod vlan;

use crate::Row;
use ng_base::Kind;
use ng_shape::Shape;

// Shapes that many rows have.

const NOTHING: Shape = Shape::Nothing;

const U8: Shape = Shape::UInt(8);

const U16: Shape = Shape::UInt(16);

const U32: Shape = Shape::UInt(32);

const U64: Shape = Shape::UInt(64);

// The name of a node, a hook or a type: 31 bytes at most and a NUL (NG_NODESIZ, NG_HOOKSIZ, NG_TYPESIZ).
const NAME: Shape = Shape::Str(32);

// The rows of a type of node, without those that all nodes know.
pub(crate) fn rows_of(kind: Kind) -> &'static [Row]
    ensures { map message_of result.now ≡ messages_of kind }
{
    match kind {
        Kind::Hub => hub::rows(),
        Kind::Tee => tee::rows(),
        Kind::One2many => one2many::rows(),
        Kind::Bridge => bridge::rows(),
        Kind::Vlan => vlan::rows(),
        Kind::Patch => patch::rows(),
        Kind::Bpf => bpf::rows(),
        Kind::Ether => ether::rows(),
        Kind::Etf => etf::rows(),
        Kind::Macset => macset::rows(),
        Kind::Hole | Kind::Echo | Kind::Split | Kind::Socket => &[],
    }
}
