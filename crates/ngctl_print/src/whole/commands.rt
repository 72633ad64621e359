// The commands of a run, by their numbers.
ghost use Rattle.std.specs.Prelude.{◌≡◌, ◌↔◌, IsTrue};
ghost use Rattle.std.specs.Option.{option_copied};
ghost use Rattle.ngctl_print.specs.whole.Commands.{command_numbered, line_of, asked_by, AreFrom};

use ng_machine::{Command, What};

/// Whether the commands have the numbers 1, 2 and so on, as those of a script.
pub(super) fn are_in_order(commands: &[Command]) -> bool
    ensures { IsTrue result ↔ AreFrom 1 commands.now }
{
    let mut next: u64 = 1;
    for command in commands {
        if u64::from(command.number) != next {
            return false;
        }
        next += 1;
    }
    true
}

// The first command of that number, where they are in order.
fn command_in_order(commands: &[Command], number: u32) -> Option<&Command>
    requires { AreFrom 1 commands.now }
    ensures { option_copied result ≡ command_numbered commands.now number }
{
    if number == 0 {
        return None;
    }
    commands.get(number as usize - 1)
}

/// The first command of that number. Where they are in order it is found by its place, or else looked for
/// from the first one on.
pub(super) fn command_numbered(
    commands: &[Command],
    in_order: bool,
    number: u32,
) -> Option<&Command>
    requires { IsTrue in_order → AreFrom 1 commands.now }
    ensures { option_copied result ≡ command_numbered commands.now number }
{
    if in_order {
        return command_in_order(commands, number);
    }
    commands.iter().find(|command| command.number == number)
}

/// The line of the command of that number, without the blanks at its ends; no bytes where there is no such command.
pub(super) fn line_numbered(commands: &[Command], in_order: bool, number: u32) -> &[u8]
    requires { IsTrue in_order → AreFrom 1 commands.now }
    ensures { result.now ≡ line_of (command_numbered commands.now number) }
{
    match command_numbered(commands, in_order, number) {
        Some(command) => command.line.0.as_slice(),
        None => &[],
    }
}

/// What the command of that number asks for.
pub(super) fn asked_by(commands: &[Command], in_order: bool, number: u32) -> Option<&What>
    requires { IsTrue in_order → AreFrom 1 commands.now }
    ensures { option_copied result ≡ asked_by (command_numbered commands.now number) }
{
    match command_numbered(commands, in_order, number) {
        Some(command) => Some(&command.what),
        None => None,
    }
}
