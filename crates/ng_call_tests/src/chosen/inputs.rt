// Inputs of the examples.
use ng_base::{Packet, Stamp};
use ng_machine::{BoxedCommand, Command, Input};
use ngctl_script::read_script;
use std::alloc::Global;
use std::test::Fail;

/// What is fed: a line of a script, or a packet by a port.
#[derive(Clone, Copy)]
pub(super) enum Given {
    Line(&'static str),
    Packet(u32, &'static [u8]),
}

// The commands of a text get the numbers from this one on.
fn add_commands(
    alloc: Global,
    text: &str,
    number: &mut u32,
    inputs: &mut Vec<Input>,
) -> Result<(), Fail> {
    for (_, command) in read_script(alloc, text.as_bytes())?.into_commands() {
        *number = number.saturating_add(1);
        let numbered = Command {
            number: *number,
            line: command.line,
            what: command.what,
        };
        inputs.push(Input::Command(BoxedCommand::new(alloc, numbered)?))?;
    }
    Ok(())
}

/// The inputs, in order; all packets have one time.
pub(super) fn inputs(alloc: Global, given: &[Given]) -> Result<Vec<Input>, Fail> {
    let mut inputs = Vec::new(alloc);
    let mut number = 0;
    for one in given {
        match one {
            Given::Line(text) => add_commands(alloc, text, &mut number, &mut inputs)?,
            Given::Packet(port, bytes) => inputs.push(Input::Packet {
                port: *port,
                stamp: Stamp(1),
                packet: Packet::new(alloc, bytes)?,
            })?,
        }
    }
    Ok(inputs)
}
