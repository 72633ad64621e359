// The commands of a script that were not fed yet.
ghost use Rattle.std.specs.Prelude.{◌≡◌, ◌++◌, ◌∷◌, [], ◌<◌, ◌^◌, MatchOption, OnOk, map};
ghost use Rattle.ng_machine.specs.declared.input.Input.TheVariants.{Command as CommandInput, Late as LateInput};
ghost use Rattle.ngctl_script.specs.feed.Dealing.{turn, due, left, first_when, is_due};

use crate::{Script, When};
use ng_base::NoMemory;
use ng_machine::{BoxedCommand, Command, Input};
use std::alloc::Global;
use std::marker::Model;

/// The commands that were not fed yet, each with the time when it is. A contract sees them as a list.
#[derive(Drop)]
pub(super) struct Commands {
    // the last one is the next
    behind: Vec<(When, Command)>,
    alloc: Global,
}

impl Model for Commands {
    ghost use Rattle.std.specs.Prelude.{List, reverse};
    ghost use Rattle.ng_machine.specs.declared.command.Command.{Command};
    ghost use Rattle.ngctl_script.specs.declared.when.When.{When};

    ghost Value = { List (When × Command) };

    ghost view = { λ c. reverse c.behind.items };
}

/// The turn in which a command is fed, where there are so many packets: 0 in front of all, 1 right behind that, n + 1 behind
/// packet n, and the last one at the end.
fn turn_of(when: When, packets: u128) -> u128
    requires { packets < 2 ^ 100 }
    ensures { result ≡ turn packets when }
{
    match when {
        When::First => 0,
        When::After(place) => u128::from(place).min(packets) + 1,
        When::Late => packets + 2,
    }
}

impl Commands {
    /// All commands of a script.
    pub fn of(alloc: Global, script: Script) -> Commands
        ensures { result ≡ script }
    {
        let mut behind = script.into_commands();
        behind.as_mut_slice().reverse();
        Commands { behind, alloc }
    }

    fn first(&self) -> Option<When>
        ensures { result ≡ first_when self.now }
    {
        match self.behind.last() {
            Some((when, _)) => Some(*when),
            None => None,
        }
    }

    fn take(&mut self) -> Option<(When, Command)>
        ensures { MatchOption result ((self.old ≡ []) × (self.new ≡ [])) (λ timed. self.old ≡ timed ∷ self.new) }
    {
        self.behind.pop()
    }

    fn has_turn(&self, packets: u128, now: u128) -> bool
        requires { packets < 2 ^ 100 }
        ensures { result ≡ is_due packets now self.now }
    {
        match self.first() {
            Some(when) => turn_of(when, packets) == now,
            None => false,
        }
    }

    /// Feeds the commands in front that have this turn.
    ///
    /// # Errors
    /// `NoMemory` where memory ran out, and for nothing else.
    pub fn feed_turn(
        &mut self,
        inputs: &mut Vec<Input>,
        packets: u128,
        now: u128,
    ) -> Result<(), NoMemory>
        requires { packets < 2 ^ 100 }
        ensures inputs { OnOk result (inputs.new.items ≡ inputs.old.items ++ map (λ timed. CommandInput timed.1) (due packets now self.old)) }
        ensures rest { OnOk result (self.new ≡ left packets now self.old) }
    {
        while self.has_turn(packets, now) {
            let Some((_, command)) = self.take() else {
                break;
            };
            inputs.push(Input::Command(BoxedCommand::new(self.alloc, command)?))?;
        }
        Ok(())
    }

    /// Feeds all that is left, once nothing is pending.
    ///
    /// # Errors
    /// `NoMemory` where memory ran out, and for nothing else.
    pub fn feed_late(&mut self, inputs: &mut Vec<Input>) -> Result<(), NoMemory>
        ensures { OnOk result (inputs.new.items ≡ inputs.old.items ++ map (λ timed. LateInput timed.1) self.old) }
    {
        while let Some((_, command)) = self.take() {
            inputs.push(Input::Late(BoxedCommand::new(self.alloc, command)?))?;
        }
        Ok(())
    }
}
