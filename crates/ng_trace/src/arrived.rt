// The packets among inputs.
ghost use Rattle.std.specs.Prelude.{◌≡◌, length, map, IfOk};
ghost use Rattle.ng_trace.specs.Arrivals.{arrived_of};

use ng_base::NoMemory;
use ng_machine::Input;
use std::alloc::Global;

/// What is told of a packet that came in.
#[derive(Clone, Copy)]
pub struct Arrived {
    /// Its port, from 0.
    pub port: u32,
    /// How many bytes it has.
    pub length: u64,
}

// The packet of an input, if it is one.
fn arrived_of(input: &Input) -> Option<Arrived>
    ensures { result ≡ arrived_of input.now }
{
    match input {
        Input::Packet { port, packet, .. } => Some(Arrived {
            port: *port,
            length: packet.bytes().len() as u64,
        }),
        Input::Command(_) | Input::Late(_) | Input::Tick(_) => None,
    }
}

/// The packet of each input, if it is one.
///
/// # Errors
/// `NoMemory` where memory ran out, and for nothing else.
pub fn arrivals(alloc: Global, inputs: &[Input]) -> Result<Vec<Option<Arrived>>, NoMemory>
    ensures { IfOk result (λ all. all.items ≡ map arrived_of inputs.now) }
{
    let mut all = Vec::new(alloc);
    for input in inputs {
        all.push(arrived_of(input))?;
    }
    Ok(all)
}
