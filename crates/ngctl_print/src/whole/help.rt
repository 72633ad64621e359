// The usages of the commands.
ghost use Rattle.std.specs.Prelude.{◌≡◌, IfOk, string_bytes};
ghost use Rattle.std.specs.Option.{option_copied};
ghost use Rattle.std.specs.List.{flat_map};
ghost use Rattle.ngctl_print.specs.Prints.{Prints};
ghost use Rattle.ngctl_script.specs.Commands.{named};
ghost use Rattle.ngctl_print.specs.whole.Help.{usage_line, usage_of, help_text};

use crate::{PrintStop, put_line};
use ng_machine::What;
use ng_outside::Sink;
use ngctl_script::Verb;
use std::alloc::{AllocError, Global};

#[tactic(auto, unfolding(crate::specs::whole::Help::usage_line))]
fn usage_line(alloc: Global, verb: Verb) -> Result<String, AllocError>
    ensures { IfOk result (λ line. string_bytes line ≡ usage_line verb) }
{
    let usage = verb.usage();
    format!(in alloc; "  {usage}\n")
}

fn print_usage<O: Sink>(alloc: Global, verb: Verb, out: &mut O) -> Result<(), PrintStop>
    ensures { Prints (O.contents out.old) (O.contents out.new) (O.faults out.old) (O.faults out.new) result (usage_line verb) }
{
    let line = usage_line(alloc, verb)?;
    put_line(out, line.as_bytes())
}

fn print_usages<O: Sink>(alloc: Global, verbs: &[Verb], out: &mut O) -> Result<(), PrintStop>
    ensures { Prints (O.contents out.old) (O.contents out.new) (O.faults out.old) (O.faults out.new) result (flat_map usage_line verbs.now) }
{
    for verb in verbs {
        print_usage(alloc, *verb, out)?;
    }
    Ok(())
}

fn print_named<O: Sink>(alloc: Global, word: &[u8], out: &mut O) -> Result<(), PrintStop>
    ensures { Prints (O.contents out.old) (O.contents out.new) (O.faults out.old) (O.faults out.new) result (usage_of (named word.now)) }
{
    match Verb::named(word) {
        Ok(verb) => print_usage(alloc, verb, out),
        Err(_) => Ok(()),
    }
}

/// Puts the usage of the command that `help` was asked for, or of all commands in order where it was
/// asked for none.
///
/// # Errors
/// `Fault` where the sink failed, `NoMemory` for want of memory.
pub(super) fn print_help<O: Sink>(
    alloc: Global,
    what: Option<&What>,
    out: &mut O,
) -> Result<(), PrintStop>
    ensures { Prints (O.contents out.old) (O.contents out.new) (O.faults out.old) (O.faults out.new) result (help_text (option_copied what.entry)) }
{
    match what {
        Some(
            What::Help {
                command: Some(word),
            },
        ) => print_named(alloc, &word.0, out),
        _ => print_usages(alloc, &Verb::ALL, out),
    }
}
