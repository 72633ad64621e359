// Whether inputs fit a core that was just made.
ghost use Rattle.std.specs.Prelude.{◌≡◌, ◌≤◌, true, length};
ghost use Rattle.std.specs.List.{list_all};
ghost use Rattle.ng_call_tests.specs.chosen.Fit.{fits_input, fits_request};
ghost use Rattle.ng_machine.specs.Feed.{request_of};

use ng_base::MAX_PACKET_LEN;
use ng_machine::{Input, What};

fn fits_what(what: &What) -> bool
    ensures { result ≡ fits_request (request_of what.now) }
{
    match what {
        What::Write { hook: _, bytes } => bytes.0.len() <= MAX_PACKET_LEN,
        What::Show { brief: true, .. } => true,
        What::List { named: true } => true,
        _ => true,
    }
}

fn fits(input: &Input, ports: usize) -> bool
    ensures { result ≡ fits_input ports input.now }
{
    match input {
        Input::Command(command) | Input::Late(command) => fits_what(&command.get().what),
        Input::Packet { port, packet, .. } => {
            (*port as usize) < ports && packet.bytes().len() <= MAX_PACKET_LEN
        }
        Input::Tick(_) => true,
    }
}

/// Whether the inputs fit so many ports.
pub(super) fn all_fit(inputs: &[Input], ports: usize) -> bool
    ensures { result ≡ list_all (fits_input ports) inputs.now }
{
    inputs.iter().all(|input| fits(input, ports))
}
