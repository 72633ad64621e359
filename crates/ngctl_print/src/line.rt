// One line of text into a sink.
ghost use Rattle.ngctl_print.specs.Prints.{Prints};

use crate::PrintStop;
use ng_outside::{Sink, put_all};

/// Puts one line, its LF included: all of it is offered first, and then what is left of it.
///
/// # Errors
/// `Fault` where the sink failed.
pub fn put_line<O: Sink>(out: &mut O, line: &[u8]) -> Result<(), PrintStop>
    ensures { Prints (O.contents out.old) (O.contents out.new) (O.faults out.old) (O.faults out.new) result line.now }
{
    put_all(out, line)?;
    Ok(())
}
