// The commands of a script, in order.
use crate::When;
use ng_machine::Command;
use std::marker::Model;

/// The commands of a script up to and including the first `quit`, each with the time when it is fed. A contract sees it
/// as their list. The numbers of the commands are 1, 2 and so on; each is the command of its line, which has at most
/// 4,096 bytes; none is fed before one that stands in front of it; and there are at most 4,096 of them.
#[derive(Drop)]
pub struct Script {
    commands: Vec<(When, Command)>,
}

impl Model for Script {
    ghost use Rattle.std.specs.Prelude.{List};
    ghost use Rattle.ng_machine.specs.declared.command.Command.{Command};
    ghost use Rattle.ngctl_script.specs.declared.when.When.{When};
    ghost use Rattle.ngctl_script.specs.Held.{AreCommands};

    ghost Value = { List (When × Command) };

    ghost view = { λ s. s.commands.items };

    ghost invariant = { λ s. AreCommands s.commands.items };
}

impl Script {
    ghost use Rattle.std.specs.Prelude.{◌≡◌};
    ghost use Rattle.ngctl_script.specs.Held.{AreCommands};

    /// The script of the commands.
    pub(crate) fn of(commands: Vec<(When, Command)>) -> Script
        requires { AreCommands commands.items }
        ensures { result ≡ commands.items }
    {
        Script { commands }
    }

    /// The commands, in order, each with the time when it is fed.
    pub fn commands(&self) -> &[(When, Command)]
        ensures commands { result.now ≡ self.now }
        ensures held { AreCommands self.now }
    {
        &self.commands
    }

    /// The commands, in order, taken out of the script.
    pub fn into_commands(self) -> Vec<(When, Command)>
        ensures commands { result.items ≡ self }
        ensures held { AreCommands self }
    {
        self.commands
    }
}
