// Texts and their bytes.
ghost use Rattle.std.specs.Prelude.{◌≡◌, length, IfOk};
ghost use Rattle.ng_shape.specs.Shape.{shape_of};
ghost use Rattle.ng_shape.specs.Sound.{IsShape};
ghost use Rattle.ng_shape.specs.Values.{value_of};
ghost use Rattle.ng_shape.specs.Canonical.{IsCanonical};
ghost use Rattle.ng_parse.specs.Faults.{Follows, IsUnlessNoMemory};
ghost use Rattle.ng_parse.specs.Printing.{print};
ghost use Rattle.ng_shape.specs.Decoding.{IsUnlessNoMemory as IsBytesUnlessNoMemory};
ghost use Rattle.ng_parse.specs.Texts.{bytes_of_text, text_of_bytes, value_of_text};

use crate::TextFault;
use crate::counting::{Around, wrong_count};
use crate::fault::{Fault, place_fault};
use crate::printing::print;
use crate::reading::read_all;
use ng_base::{NoMemory, Stop};
use ng_shape::{BytesFault, Shape, Tree, lay_out, read_bytes};
use std::alloc::Global;

/// The value that a text says.
#[tactic(auto, unfolding(crate::specs::Texts::value_of_text))]
fn read_text(alloc: Global, shape: &Shape, text: &[u8]) -> Result<Tree, Stop<Fault>>
    ensures { Follows (λ tree. value_of tree) result (value_of_text (shape_of shape.now) text.now) }
{
    let tree = read_all(alloc, shape, text)?;
    let nowhere = Around {
        fields: &[],
        members: &[],
    };
    match wrong_count(nowhere, shape, Some(&tree)) {
        Some(fault) => Err(Stop::Fault(fault)),
        None => Ok(tree),
    }
}

/// The bytes that a text stands for. The text is an ASCII form as ngctl(8) takes it for the arguments of
/// `msg` and netgraph's `ng_parse.h` describes it. What is not given is zeros, and a count that is not
/// given is that of the elements: the greatest index of its array plus 1.
///
/// The bytes are canonical: they have the layout and the length of the shape, padding is zeros, each
/// string ends with a NUL and has only zeros behind it, and no count is above the greatest length of
/// its array.
///
/// # Errors
/// The first fault of the text: of those met in reading the one of least place, with `Unexpected`,
/// `UnknownField`, `Twice`, `Range` and `TooMany` in this order at one place; then of the counts, in
/// order of fields, `Range` at a count above the greatest length of its array, and `TooMany` where an
/// array begins that has an index not below its count. `NoMemory` comes where memory runs out, and then alone.
#[tactic(auto, unfolding(crate::specs::Texts::bytes_of_text))]
pub fn to_bytes(alloc: Global, shape: &Shape, text: &[u8]) -> Result<Vec<u8>, TextFault>
    ensures form { IsUnlessNoMemory (λ bytes. bytes.items) result (bytes_of_text (shape_of shape.now) text.now) }
    ensures canonical { IsShape (shape_of shape.now) → IfOk result (λ bytes. IsCanonical (shape_of shape.now) bytes.items) }
{
    match read_text(alloc, shape, text) {
        Ok(tree) => match lay_out(alloc, shape, &tree) {
            Ok(bytes) => Ok(bytes),
            Err(NoMemory) => Err(TextFault::NoMemory),
        },
        Err(Stop::Fault(fault)) => Err(place_fault(text.len(), fault)),
        Err(Stop::NoMemory) => Err(TextFault::NoMemory),
    }
}

fn print_tree(alloc: Global, shape: &Shape, tree: &Tree) -> Result<Vec<u8>, NoMemory>
    ensures { IfOk result (λ text. text.items ≡ print (shape_of shape.now) (value_of tree.now)) }
{
    let mut out = Vec::new(alloc);
    print(alloc, &mut out, shape, Some(tree))?;
    Ok(out)
}

/// The text of bytes, as ngctl(8) prints the arguments of a message.
///
/// The bytes need not be canonical: padding may be anything, and a string ends before its first NUL or
/// where its bytes do. The text of canonical bytes is a form of exactly these bytes.
///
/// # Errors
/// `Short` where bytes are missing, with the place right behind the first integer, string, address or
/// stretch of padding that is not there whole, and the number of bytes; `Trailing` with how many bytes
/// are left over. `NoMemory` comes where memory runs out, and then alone.
#[tactic(auto, unfolding(crate::specs::Texts::text_of_bytes))]
pub fn to_text(alloc: Global, shape: &Shape, bytes: &[u8]) -> Result<Vec<u8>, BytesFault>
    ensures { IsBytesUnlessNoMemory (λ text. text.items) result (text_of_bytes (shape_of shape.now) bytes.now) }
{
    let tree = read_bytes(alloc, shape, bytes)?;
    match print_tree(alloc, shape, &tree) {
        Ok(text) => Ok(text),
        Err(NoMemory) => Err(BytesFault::NoMemory),
    }
}
