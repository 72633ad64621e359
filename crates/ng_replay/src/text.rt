// The text of a run that a core has made.
ghost use Rattle.std.specs.Prelude.{◌≡◌, ◌≤◌, length, IfOk};
ghost use Rattle.std.specs.List.{list_any};
ghost use Rattle.ng_call.specs.Writes.{is_stop, shown_by};
ghost use Rattle.ng_core.specs.CoreStory.{story};
ghost use Rattle.ng_machine.specs.story.Story.{world_of};
ghost use Rattle.ngctl_print.specs.Prints.{Prints};
ghost use Rattle.ngctl_print.specs.whole.Text.{reports, world_text};
ghost use Rattle.ngctl_print.specs.whole.Told.{ArePrintable};

use ng_args::PortWord;
use ng_base::NoMemory;
use ng_call::is_stopped;
use ng_core::Core;
use ng_journal::kept::Journal;
use ng_machine::Command;
use ng_outside::Sink;
use ng_plan::node::Node;
use ngctl_print::PrintStop;
use ngctl_print::whole::{PortReport, Summary, print_text};
use std::alloc::Global;

// The lines of the ports, each with the place where its capture was cut.
fn reports<B: Node>(
    alloc: Global,
    core: &Core<B>,
    ports: &[PortWord],
    cuts: &[Option<u64>],
) -> Result<Vec<PortReport>, NoMemory>
    requires cuts { length ports.now ≡ length cuts.now }
    requires few { length ports.now ≤ 64 }
    requires there { length ports.now ≡ length core.now.ports }
    ensures { IfOk result (λ made. made.items ≡ reports (shown_by ports.now cuts.now) (world_of (story core.now)).ports) }
{
    let mut made = Vec::new(alloc);
    for i in 0..ports.len() {
        made.push(PortReport {
            name: ports[i].name,
            totals: core.port(i as u32),
            cut: cuts[i],
        })?;
    }
    Ok(made)
}

/// Puts the text of the run of a journal, where the core stands. The run had so many inputs.
///
/// # Errors
/// `Fault` where the sink failed, `NoMemory` where memory ran out. A prefix of the text was put then.
pub(crate) fn print_core<B: Node, O: Sink>(
    alloc: Global,
    core: &Core<B>,
    journal: &Journal,
    commands: &[Command],
    ports: &[PortWord],
    cuts: &[Option<u64>],
    of: u64,
    out: &mut O,
) -> Result<(), PrintStop>
    requires printable { ArePrintable commands.now (world_of (story core.now)).told }
    requires cuts { length ports.now ≡ length cuts.now }
    requires few { length ports.now ≤ 64 }
    requires there { length ports.now ≡ length core.now.ports }
    ensures { Prints (O.contents out.old) (O.contents out.new) (O.faults out.old) (O.faults out.new) result
        (world_text commands.now (shown_by ports.now cuts.now) of (world_of (story core.now)) (list_any is_stop journal.now.items)) }
{
    let Ok(lines) = reports(alloc, core, ports, cuts) else {
        return Err(PrintStop::NoMemory);
    };
    let summary = Summary {
        totals: core.totals(),
        fed: core.fed(),
        of,
        stopped: is_stopped(journal),
    };
    print_text(alloc, commands, core.told(), &summary, &lines, out)
}
