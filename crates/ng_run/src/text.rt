// The text of a run.
ghost use Rattle.std.specs.Prelude.{◌≡◌, ◌≤◌, List, length, map, IfOk};
ghost use Rattle.std.specs.List.{list_any};
ghost use Rattle.ng_machine.specs.declared.told.Told.{Told};
ghost use Rattle.ng_core.specs.CoreStory.{story};
ghost use Rattle.ng_machine.specs.story.Story.{world_of};
ghost use Rattle.ng_pcap.specs.declared.capture.Capture.{Capture};
ghost use Rattle.ngctl_print.specs.Prints.{Prints};
ghost use Rattle.ngctl_print.specs.whole.Text.{world_text, reports};
ghost use Rattle.ngctl_print.specs.whole.Told.{ArePrintable};
ghost use Rattle.ng_call.specs.Writes.{is_stop, is_error, shown_by};

use ng_args::PortWord;
use ng_base::NoMemory;
use ng_call::is_stopped;
use ng_core::Core;
use ng_machine::{Command, Told};
use ng_outside::Sink;
use ng_plan::node::Node;
use ngctl_print::PrintStop;
use ngctl_print::whole::{PortReport, Summary, print_text};
use std::alloc::Global;

fn is_error(told: &Told) -> bool
    ensures { result ≡ is_error told.now }
{
    match told {
        Told::Refused { errno, .. } => errno.0 != 0,
        _ => false,
    }
}

/// Whether an errno was told that is not 0.
pub(crate) fn has_error(told: &[Told]) -> bool
    ensures { result ≡ list_any is_error told.now }
{
    told.iter().any(|entry| is_error(entry))
}

// The lines of the ports, each with the place where its capture was cut.
fn reports<B: Node>(
    alloc: Global,
    core: &Core<B>,
    ports: &[PortWord],
    cuts: &[Option<u64>],
) -> Result<Vec<PortReport>, NoMemory>
    requires cuts { length ports.now ≡ length cuts.now }
    requires few { length ports.now ≤ 64 }
    requires there { length ports.now ≤ length (world_of (story core.now)).ports }
    ensures { IfOk result (λ made. made.items ≡ reports (shown_by ports.now cuts.now) (world_of (story core.now)).ports) }
{
    let mut made = Vec::new(alloc);
    for i in 0..ports.len() {
        made.push(PortReport {
            name: ports[i].name,
            totals: core.port(i as u32),
            cut: cuts[i],
        })?;
    }
    Ok(made)
}

/// Puts the text of a run, whose inputs were so many.
///
/// # Errors
/// `Fault` where the sink failed, `NoMemory` where memory ran out. A prefix of the text was put then.
pub(crate) fn print_run<B: Node, O: Sink>(
    alloc: Global,
    core: &Core<B>,
    commands: &[Command],
    ports: &[PortWord],
    cuts: &[Option<u64>],
    of: u64,
    out: &mut O,
) -> Result<(), PrintStop>
    requires printable { ArePrintable commands.now (world_of (story core.now)).told }
    requires cuts { length ports.now ≡ length cuts.now }
    requires few { length ports.now ≤ 64 }
    requires there { length ports.now ≤ length (world_of (story core.now)).ports }
    ensures { Prints (O.contents out.old) (O.contents out.new) (O.faults out.old) (O.faults out.new) result
        (world_text commands.now (shown_by ports.now cuts.now) of (world_of (story core.now)) (list_any is_stop core.now.journal)) }
{
    let Ok(lines) = reports(alloc, core, ports, cuts) else {
        return Err(PrintStop::NoMemory);
    };
    let summary = Summary {
        totals: core.totals(),
        fed: core.fed(),
        of,
        stopped: is_stopped(core.journal()),
    };
    print_text(alloc, commands, core.told(), &summary, &lines, out)
}
