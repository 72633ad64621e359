// Reading a script.
ghost use Rattle.std.specs.Prelude.{◌≡◌, MatchResult, None};
ghost use Rattle.ngctl_script.specs.Script.{IsFaultOf, commands_of, script_fault};

use crate::lines::next_line;
use crate::reading::Reading;
use crate::{Script, ScriptFault};
use std::alloc::Global;

/// Reads a script of the commands of ngctl(8).
///
/// A line ends with LF or CR LF; the last line may lack its end. Blanks, which are spaces and tabs, are dropped at both
/// ends of a line. An empty line and one that begins with `#` are skipped. A line that begins with `@` is a mark: `@end`,
/// or `@` and a number up to 1,000,000 in decimal digits, without a zero in front of others. Every other line is a
/// command. Lines behind the first `quit` have to be in form and are no commands of the script.
///
/// # Errors
/// That of the first line that has a fault, with the line's number, from 1:
/// - `LineTooLong` where the line has more than 4,096 bytes without its end;
/// - else `BadMark` where it begins with `@` and is no mark, or a number below that of the mark before it, or a number
///   behind `@end`;
/// - else `TooMany` where it is the 4,097th command.
///
/// `NoMemory` comes for want of memory alone, and for a script of more than 4,294,967,295 lines, which would need
/// greater numbers.
pub fn read_script(alloc: Global, bytes: &[u8]) -> Result<Script, ScriptFault>
    ensures read { MatchResult result (λ script. (script_fault bytes.now ≡ None) × (script ≡ commands_of bytes.now))
        (λ fault. IsFaultOf bytes.now fault) }
{
    let mut reading = Reading::start(alloc);
    let mut rest = bytes;
    while let Some((line, behind)) = next_line(rest) {
        reading = reading.with_line(alloc, line)?;
        rest = behind;
    }
    Ok(Script::of(reading.commands))
}
