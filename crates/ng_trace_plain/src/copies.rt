// Inputs that are fed twice are copied.
ghost use Rattle.std.specs.Prelude.{◌≡◌, map, IfOk};

use ng_base::{Bytes, NoMemory};
use ng_machine::{BoxedCommand, Command, Input, What};
use std::alloc::Global;

fn copy_bytes(alloc: Global, bytes: &Bytes) -> Result<Bytes, NoMemory>
    ensures { IfOk result (λ copy. copy ≡ bytes.now) }
{
    Ok(Bytes(Vec::from_slice(alloc, bytes.0.as_slice())?))
}

fn copy_if(alloc: Global, bytes: &Option<Bytes>) -> Result<Option<Bytes>, NoMemory>
    ensures { IfOk result (λ copy. copy ≡ bytes.now) }
{
    match bytes {
        Some(bytes) => Ok(Some(copy_bytes(alloc, bytes)?)),
        None => Ok(None),
    }
}

fn copy_what(alloc: Global, what: &What) -> Result<What, NoMemory>
    ensures { IfOk result (λ copy. copy ≡ what.now) }
{
    let copy = match what {
        What::Bad(words) => What::Bad(copy_bytes(alloc, words)?),
        What::Config { path, args } => What::Config {
            path: copy_bytes(alloc, path)?,
            args: copy_bytes(alloc, args)?,
        },
        What::Connect {
            path,
            relpath,
            hook,
            peerhook,
        } => What::Connect {
            path: copy_if(alloc, path)?,
            relpath: copy_bytes(alloc, relpath)?,
            hook: *hook,
            peerhook: *peerhook,
        },
        What::Help { command } => What::Help {
            command: copy_if(alloc, command)?,
        },
        What::List { named } => What::List { named: *named },
        What::Mkpeer {
            path,
            kind_name,
            hook,
            peerhook,
        } => What::Mkpeer {
            path: copy_if(alloc, path)?,
            kind_name: *kind_name,
            hook: *hook,
            peerhook: *peerhook,
        },
        What::Msg {
            path,
            command,
            args,
        } => What::Msg {
            path: copy_bytes(alloc, path)?,
            command: copy_bytes(alloc, command)?,
            args: copy_bytes(alloc, args)?,
        },
        What::Name { path, name } => What::Name {
            path: copy_bytes(alloc, path)?,
            name: *name,
        },
        What::Quit => What::Quit,
        What::Rmhook { path, hook } => What::Rmhook {
            path: copy_if(alloc, path)?,
            hook: *hook,
        },
        What::Show { brief, path } => What::Show {
            brief: *brief,
            path: copy_bytes(alloc, path)?,
        },
        What::Shutdown { path } => What::Shutdown {
            path: copy_bytes(alloc, path)?,
        },
        What::Status { path } => What::Status {
            path: copy_bytes(alloc, path)?,
        },
        What::Types => What::Types,
        What::Write { hook, bytes } => What::Write {
            hook: *hook,
            bytes: copy_bytes(alloc, bytes)?,
        },
    };
    Ok(copy)
}

fn copy_command(alloc: Global, command: &BoxedCommand) -> Result<BoxedCommand, NoMemory>
    ensures { IfOk result (λ copy. copy ≡ command.now) }
{
    let command = command.get();
    let copy = Command {
        number: command.number,
        line: copy_bytes(alloc, &command.line)?,
        what: copy_what(alloc, &command.what)?,
    };
    BoxedCommand::new(alloc, copy)
}

fn copy_input(alloc: Global, input: &Input) -> Result<Input, NoMemory>
    ensures { IfOk result (λ copy. copy ≡ input.now) }
{
    match input {
        Input::Command(command) => Ok(Input::Command(copy_command(alloc, command)?)),
        Input::Late(command) => Ok(Input::Late(copy_command(alloc, command)?)),
        Input::Packet {
            port,
            stamp,
            packet,
        } => Ok(Input::Packet {
            port: *port,
            stamp: *stamp,
            packet: packet.again()?,
        }),
        Input::Tick(seconds) => Ok(Input::Tick(*seconds)),
    }
}

/// The same inputs again; the bytes of packets are shared.
///
/// # Errors
/// `NoMemory` where memory ran out, and for nothing else.
pub(crate) fn copy_inputs(alloc: Global, inputs: &[Input]) -> Result<Vec<Input>, NoMemory>
    ensures { IfOk result (λ copies. copies.items ≡ inputs.now) }
{
    let mut copies = Vec::with_capacity(alloc, inputs.len())?;
    for input in inputs {
        copies.push(copy_input(alloc, input)?)?;
    }
    Ok(copies)
}
