// What was read of a script.
ghost use Rattle.std.specs.Prelude.{◌≡◌, ◌+◌, ◌<◌, [], List, IfOk, MatchResult, false};
ghost use Rattle.ng_machine.specs.declared.command.Command.{Command as CommandOfLine};
ghost use Rattle.ngctl_script.specs.declared.when.When.{When as Time};
ghost use Rattle.ngctl_script.specs.Forms.{what_of as what_of_line};
ghost use Rattle.ngctl_script.specs.Lines.{line_of as what_line};
ghost use Rattle.ngctl_script.specs.Reading.{IsNextReading, before_of, joined, line_seen};
ghost use Rattle.ngctl_script.specs.Script.{IsTold, command_of, fault_of, most_commands, may_follow as mark_may_follow, past, until_quit};
ghost use Rattle.ngctl_script.specs.Lines.{Command as CommandLine};

use crate::forms::{copy, form_of};
use crate::lines::{Line, line_of};
use crate::{ScriptFault, When};
use ng_base::{NoMemory, Stop};
use ng_machine::{Command, What};
use std::alloc::Global;

const MAX_LINE: usize = 4096;

const MAX_COMMANDS: usize = 4096;

/// What was read of a script so far.
#[derive(Drop)]
pub(crate) struct Reading {
    /// How many lines there were.
    pub(crate) number: u32,
    /// The last mark.
    pub(crate) when: When,
    /// How many commands there were, also behind a `quit`.
    pub(crate) count: usize,
    /// Whether there was a `quit`.
    pub(crate) is_over: bool,
    /// The commands up to and including the first `quit`.
    pub(crate) commands: Vec<(When, Command)>,
}

/// What the line of a command asks for.
fn what_of(alloc: Global, line: &[u8]) -> Result<What, NoMemory>
    ensures { IfOk result (λ what. what ≡ what_of_line line.now) }
{
    match form_of(alloc, line) {
        Ok(what) => Ok(what),
        Err(Stop::Fault(why)) => Ok(What::Bad(why.words(alloc)?)),
        Err(Stop::NoMemory) => Err(NoMemory),
    }
}

/// Whether a mark may stand behind the last one.
fn may_follow(last: When, mark: Option<When>) -> bool
    ensures { result ≡ mark_may_follow last mark }
{
    match (last, mark) {
        (_, Some(When::Late)) => true,
        (When::First, Some(When::After(_))) => true,
        (When::After(number), Some(When::After(next))) => number <= next,
        _ => false,
    }
}

impl Reading {
    /// Nothing was read.
    pub(crate) fn start(alloc: Global) -> Reading
        ensures number { result.number ≡ 0 }
        ensures when { result.when ≡ When.First }
        ensures count { result.count ≡ 0 }
        ensures open { result.is_over ≡ false }
        ensures commands { result.commands.items ≡ [] }
    {
        Reading {
            number: 0,
            when: When::First,
            count: 0,
            is_over: false,
            commands: Vec::new(alloc),
        }
    }

    /// What is wrong with the next line.
    fn fault_in(&self, number: u32, text: &[u8], line: &Line<'_>) -> Option<ScriptFault>
        requires { line_seen line.now ≡ what_line text.now }
        ensures { result ≡ fault_of number (before_of self.now) text.now }
    {
        if text.len() > MAX_LINE {
            return Some(ScriptFault::LineTooLong(number));
        }
        match line {
            Line::Mark(mark) if !may_follow(self.when, *mark) => Some(ScriptFault::BadMark(number)),
            Line::Command(_) if self.count >= MAX_COMMANDS => Some(ScriptFault::TooMany(number)),
            _ => None,
        }
    }

    /// With one command more.
    fn with_command(self, alloc: Global, line: &[u8]) -> Result<Reading, NoMemory>
        requires { self.count < most_commands }
        ensures number { IfOk result (λ read. read.number ≡ self.number) }
        ensures before { IfOk result (λ read. before_of read ≡ past (before_of self) (CommandLine line.now)) }
        ensures commands { IfOk result (λ read. (rest : List (Time × CommandOfLine)) → joined read rest
            ≡ joined self (until_quit (self.when, command_of (self.count + 1) line.now) rest)) }
    {
        let count = self.count + 1;
        if self.is_over {
            return Ok(Reading { count, ..self });
        }
        let what = what_of(alloc, line)?;
        let is_over = matches!(&what, What::Quit);
        let command = Command {
            number: count as u32,
            line: copy(alloc, line)?,
            what,
        };
        let mut commands = self.commands;
        commands.push((self.when, command))?;
        Ok(Reading {
            number: self.number,
            when: self.when,
            count,
            is_over,
            commands,
        })
    }

    /// With one line more.
    ///
    /// # Errors
    /// The fault of the line, or `NoMemory` for want of memory and for a line whose number is beyond 32 bits.
    pub(crate) fn with_line(self, alloc: Global, text: &[u8]) -> Result<Reading, ScriptFault>
        ensures { MatchResult result (IsNextReading self text.now)
            (IsTold (fault_of (self.number + 1) (before_of self) text.now)) }
    {
        let number = self.number.checked_add(1).ok_or(ScriptFault::NoMemory)?;
        let line = line_of(text);
        if let Some(fault) = self.fault_in(number, text, &line) {
            return Err(fault);
        }
        let read = Reading { number, ..self };
        match line {
            Line::Skipped | Line::Mark(None) => Ok(read),
            Line::Mark(Some(when)) => Ok(Reading { when, ..read }),
            Line::Command(command) => Ok(read.with_command(alloc, command)?),
        }
    }
}
