// The answers to commands.
ghost use Rattle.std.specs.Prelude.{◌≡◌, IfOk, string_bytes};
ghost use Rattle.std.specs.Option.{option_copied};
ghost use Rattle.ng_shape.specs.Shape.{shape_of};
ghost use Rattle.ngctl_print.specs.listing.Lists.{list_text, show_text, types_text, IsCounted, IsShown};
ghost use Rattle.ng_table.specs.Message.{message_of, message_seen};
ghost use Rattle.ngctl_print.specs.Prints.{Prints};
ghost use Rattle.ngctl_print.specs.whole.Answers.{answer_head, value_line, message_text, answer_text, FitsAnswer};

use crate::listing::{put_list, put_show, put_types};
use crate::whole::lines::put_lines;
use crate::{PrintStop, put_line};
use ng_base::NodeId;
use ng_machine::What;
use ng_outside::Sink;
use ng_parse::to_text;
use ng_shape::{BytesFault, Shape};
use ng_table::Row;
use std::alloc::{AllocError, Global};

fn print_list<O: Sink>(
    alloc: Global,
    named: bool,
    bytes: &[u8],
    out: &mut O,
) -> Result<(), PrintStop>
    requires { IsCounted 72 bytes.now }
    ensures { Prints (O.contents out.old) (O.contents out.new) (O.faults out.old) (O.faults out.new) result (list_text named bytes.now) }
{
    let mut text = Vec::new(alloc);
    put_list(alloc, &mut text, named, bytes)?;
    put_lines(out, &text)
}

fn print_show<O: Sink>(
    alloc: Global,
    brief: bool,
    bytes: &[u8],
    out: &mut O,
) -> Result<(), PrintStop>
    requires { IsShown brief bytes.now }
    ensures { Prints (O.contents out.old) (O.contents out.new) (O.faults out.old) (O.faults out.new) result (show_text brief bytes.now) }
{
    let mut text = Vec::new(alloc);
    put_show(alloc, &mut text, brief, bytes)?;
    put_lines(out, &text)
}

fn print_types<O: Sink>(alloc: Global, bytes: &[u8], out: &mut O) -> Result<(), PrintStop>
    requires { IsCounted 36 bytes.now }
    ensures { Prints (O.contents out.old) (O.contents out.new) (O.faults out.old) (O.faults out.new) result (types_text bytes.now) }
{
    let mut text = Vec::new(alloc);
    put_types(alloc, &mut text, bytes)?;
    put_lines(out, &text)
}

#[tactic(auto, unfolding(crate::specs::whole::Answers::answer_head))]
fn answer_head(alloc: Global, name: &str, from: NodeId) -> Result<String, AllocError>
    ensures { IfOk result (λ line. string_bytes line ≡ answer_head name.now from.0) }
{
    let NodeId(id) = from;
    format!(in alloc; "answer {name} from [{id:x}]:\n")
}

fn print_head<O: Sink>(
    alloc: Global,
    name: &str,
    from: NodeId,
    out: &mut O,
) -> Result<(), PrintStop>
    ensures { Prints (O.contents out.old) (O.contents out.new) (O.faults out.old) (O.faults out.new) result (answer_head name.now from.0) }
{
    let line = answer_head(alloc, name, from)?;
    put_line(out, line.as_bytes())
}

// The line of the text of bytes, if there is one.
fn print_value<O: Sink>(
    alloc: Global,
    shape: &Shape,
    bytes: &[u8],
    out: &mut O,
) -> Result<(), PrintStop>
    ensures { Prints (O.contents out.old) (O.contents out.new) (O.faults out.old) (O.faults out.new) result (value_line (shape_of shape.now) bytes.now) }
{
    if let Shape::Nothing = shape {
        return Ok(());
    }
    match to_text(alloc, shape, bytes) {
        Ok(mut text) => {
            text.extend_from_slice(b"\n")?;
            put_line(out, &text)
        }
        Err(BytesFault::NoMemory) => Err(PrintStop::NoMemory),
        Err(_) => Ok(()),
    }
}

fn print_message<O: Sink>(
    alloc: Global,
    row: &Row,
    from: NodeId,
    bytes: &[u8],
    out: &mut O,
) -> Result<(), PrintStop>
    ensures { Prints (O.contents out.old) (O.contents out.new) (O.faults out.old) (O.faults out.new) result
        (message_text (Some (message_of row.now)) from.0 bytes.now) }
{
    print_head(alloc, row.name, from, out)?;
    print_value(alloc, row.answer, bytes, out)
}

/// Puts an answer by what its command asked for: the columns of `list`, `show` and `types`, or else the
/// name of the message, the node that answers and the text of the bytes in the shape of the row's answer.
///
/// # Errors
/// `Fault` where the sink failed, `NoMemory` for want of memory.
pub(super) fn print_answer<O: Sink>(
    alloc: Global,
    what: Option<&What>,
    from: NodeId,
    row: Option<&'static Row>,
    bytes: &[u8],
    out: &mut O,
) -> Result<(), PrintStop>
    requires { FitsAnswer (option_copied what) bytes.now }
    ensures { Prints (O.contents out.old) (O.contents out.new) (O.faults out.old) (O.faults out.new) result
        (answer_text (option_copied what.entry) from.0 (message_seen row.entry) bytes.now) }
{
    match what {
        Some(What::List { named }) => print_list(alloc, *named, bytes, out),
        Some(What::Show { brief, .. }) => print_show(alloc, *brief, bytes, out),
        Some(What::Types) => print_types(alloc, bytes, out),
        _ => match row {
            Some(row) => print_message(alloc, row, from, bytes, out),
            None => Ok(()),
        },
    }
}
