// The graph as the commands in front of every mark leave it, and the packets that come.
ghost use Rattle.std.specs.Prelude.{◌≡◌, ◌≤◌, ◌++◌, ◌∷◌, [], All, true, length, map, IfOk, OnOk};
ghost use Rattle.ngctl_script.specs.feed.Early.{IsEarly};
ghost use Rattle.ngctl_script.specs.feed.Inputs.{commands_that, is_first};
ghost use Rattle.ngctl_script.specs.feed.Merge.{merged};
ghost use Rattle.ng_machine.specs.Laws.{world_after};
ghost use Rattle.ng_machine.specs.State.{kind_of};
ghost use Rattle.ng_laws.specs.printable.Scripts.{InputsAreFit};
ghost use Rattle.ng_core.specs.Stocked.{IsStocked};
ghost use Rattle.ng_core.specs.CoreStory.{story};
ghost use Rattle.ng_machine.specs.story.Story.{world_of};
ghost use Rattle.ng_args.specs.Together.{are_ports};
ghost use Rattle.ngctl_script.specs.Held.{AreCommands};
ghost use Rattle.ng_forecast.specs.Arrivals.{packets_among};
ghost use Rattle.ng_forecast.specs.Steps.{IsRun, setting_of};

use ng_args::{ForecastWords, PortWord};
use ng_base::{Name, NoMemory};
use ng_core::Core;
use ng_laws::printable::inputs_are_fit;
use ng_machine::{BoxedCommand, Input};
use ng_pcap::Capture;
use ng_plan::node::Node;
use ng_workers::pool::{plain, plainly_is_plain, plainly_is_whole};
use ngctl_script::feed::{Arrival, inputs};
use ngctl_script::{Script, When, read_script};
use std::alloc::Global;

// So many items are applied at the most.
const MOST_APPLIED: u64 = 1_000_000;

// The commands in front of every mark.
fn first_commands(alloc: Global, script: Script) -> Result<Vec<Input>, NoMemory>
    ensures { IfOk result (λ inputs. inputs.items ≡ commands_that is_first script) }
{
    let mut inputs = Vec::new(alloc);
    for (when, command) in script.into_commands() {
        if when == When::First {
            inputs.push(Input::Command(BoxedCommand::new(alloc, command)?))?;
        }
    }
    Ok(inputs)
}

// The names of the ports.
fn names_of(alloc: Global, ports: &[PortWord]) -> Result<Vec<Name>, NoMemory>
    ensures { IfOk result (λ names. names.items ≡ map (λ port. port.name) ports.now) }
{
    let mut names = Vec::new(alloc);
    for port in ports {
        names.push(port.name)?;
    }
    Ok(names)
}

// What is known of the inputs of a script.
fn know_commands(script: &Script)
    ensures held { AreCommands script.now }
    ensures fit { InputsAreFit }
{
    let _commands = script.commands();
    inputs_are_fit();
}

/// A core whose world stands as the commands in front of every mark leave it.
///
/// # Errors
/// `NoMemory` where memory ran out, and for nothing else.
pub(crate) fn run_commands<B: Node>(
    alloc: Global,
    words: &ForecastWords,
    script: Script,
    stock: Vec<B>,
) -> Result<Core<B>, NoMemory>
    requires stocked { IsStocked B.state stock.items }
    requires names { are_ports words.now.own_name words.now.ports ≡ true }
    ensures run { IfOk result (λ core. IsRun (setting_of (map (λ b. kind_of (B.state b)) stock.items) words.now script) core.journal) }
    ensures world { IfOk result (λ core. world_of (story core) ≡ world_after (setting_of (map (λ b. kind_of (B.state b)) stock.items) words.now script) core.journal) }
    ensures ports { IfOk result (λ core. length (world_of (story core)).ports ≡ length words.now.ports) }
{
    let ports = names_of(alloc, words.ports.as_slice())?;
    know_commands(&script);
    let inputs = first_commands(alloc, script)?;
    let mut core = Core::new(alloc, words.own_name, ports, stock, MOST_APPLIED, 1)?;
    plain(alloc, &mut core, inputs)?;
    plainly_is_plain();
    plainly_is_whole();
    let _journal = core.journal();
    Ok(core)
}

// An input is added where it is a packet.
fn add_packet(input: Input, arrivals: &mut Vec<Arrival>) -> Result<(), NoMemory>
    ensures { OnOk result (arrivals.new.items ≡ arrivals.old.items ++ packets_among (input ∷ [])) }
{
    match input {
        Input::Packet {
            port,
            stamp,
            packet,
        } => {
            arrivals.push(Arrival {
                port,
                stamp,
                packet,
            })?;
            Ok(())
        }
        Input::Command(_) | Input::Late(_) | Input::Tick(_) => Ok(()),
    }
}

// The packets among inputs.
#[tactic(auto, using(crate::proofs::Coming::among_more))]
fn packets_among(alloc: Global, inputs: Vec<Input>) -> Result<Vec<Arrival>, NoMemory>
    ensures { IfOk result (λ arrivals. arrivals.items ≡ packets_among inputs.items) }
{
    let mut arrivals = Vec::new(alloc);
    for input in inputs {
        add_packet(input, &mut arrivals)?;
    }
    Ok(arrivals)
}

/// The packets of captures, in the order in which they come.
///
/// # Errors
/// `NoMemory` where memory ran out, and for nothing else.
pub(crate) fn arrivals_of(alloc: Global, captures: Vec<Capture>) -> Result<Vec<Arrival>, NoMemory>
    requires few { length captures.items ≤ 64 }
    requires early { All (λ capture. All IsEarly capture.kept) captures.items }
    ensures { IfOk result (λ arrivals. arrivals.items ≡ merged (map (λ capture. capture.kept) captures.items)) }
{
    let Ok(no_script) = read_script(alloc, &[]) else {
        return Err(NoMemory);
    };
    let inputs = inputs(alloc, no_script, captures)?;
    let arrivals = packets_among(alloc, inputs)?;
    Ok(arrivals)
}
