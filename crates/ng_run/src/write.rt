// What a call writes.
ghost use Rattle.std.specs.Prelude.{◌≡◌, ◌≤◌, ◌+◌, ◌++◌, ◌∷◌, ℕ, List, Option, length, drop, IfOk, OnOk, IfErr};
ghost use Rattle.std.specs.List.{list_any};
ghost use Rattle.ng_machine.specs.Words.{Every};
ghost use Rattle.ng_machine.specs.World.{Port};
ghost use Rattle.ng_journal.specs.Journal.{journal_text};
ghost use Rattle.ng_call.specs.ending.Writes.{WritesAll, StopsAt, StopsFor};
ghost use Rattle.ng_core.specs.CoreStory.{story};
ghost use Rattle.ng_machine.specs.story.Story.{world_of};
ghost use Rattle.ngctl_print.specs.whole.Captures.{AreWritable};
ghost use Rattle.ngctl_print.specs.whole.Text.{world_text};
ghost use Rattle.ngctl_print.specs.whole.Told.{ArePrintable};
ghost use Rattle.ng_call.specs.declared.ended.Fault.TheVariants.{NoMemory as no_memory};
ghost use Rattle.ng_call.specs.Writes.{is_stop, shown_by, out_writes, journal_writes, text_write};
ghost use Rattle.ng_call.specs.Parts.{of_files, storing, outside, counting};

use crate::text::print_run;
use ng_args::{FileName, PortWord};
use ng_base::NoMemory;
use ng_call::{Fault, Which};
use ng_core::Core;
use ng_journal::kept::Journal;
use ng_journal::put_journal;
use ng_machine::Command;
use ng_outside::{Files, Sink, write_file};
use ng_plan::node::Node;
use ngctl_print::PrintStop;
use ngctl_print::whole::capture_text;
use std::alloc::Global;

// The captures that leave by the ports from one on, those whose OUT has a name.
fn write_outs<B: Node, F: Files>(
    alloc: Global,
    core: &Core<B>,
    port: u32,
    ports: &[PortWord],
    files: &mut F,
) -> Result<(), Fault>
    requires few { port + length ports.now ≤ 64 }
    requires there { port + length ports.now ≤ length (world_of (story core.now)).ports }
    requires writable { Every (λ (p : Port). AreWritable p.leaving) (world_of (story core.now)).ports }
    ensures ok { OnOk result ((sink : Option (List ℕ)) → WritesAll (out_writes port ports.now (drop port (world_of (story core.now)).ports))
        (storing sink (F.contents files.old)) (storing sink (F.contents files.new))) }
    ensures err { IfErr result (λ fault. (sink : Option (List ℕ)) → StopsAt (StopsFor no_memory (of_files (F.contents files.old) (F.contents files.new) (F.faults files.old) (F.faults files.new)) fault)
        (out_writes port ports.now (drop port (world_of (story core.now)).ports)) (storing sink (F.contents files.old)) (storing sink (F.contents files.new))) }
    ensures counts { (other : List ℕ) → F.faults files.old other ≤ F.faults files.new other }
{
    let Some((word, others)) = ports.split_first() else {
        return Ok(());
    };
    let name = word.out_file.as_str();
    if name.is_empty() {
        return match write_outs(alloc, core, port + 1, others, files) {
            Ok(()) => Ok(()),
            Err(fault) => Err(fault),
        };
    }
    let Ok(bytes) = capture_text(alloc, core.leaving(port)) else {
        return Err(Fault::NoMemory);
    };
    if let Err(_) = write_file(files, name, &bytes) {
        return Err(Fault::WriteFault(Which::Leaving(port)));
    }
    match write_outs(alloc, core, port + 1, others, files) {
        Ok(()) => Ok(()),
        Err(fault) => Err(fault),
    }
}

// A journal as the bytes of a file.
fn journal_file(alloc: Global, journal: &Journal) -> Result<Vec<u8>, NoMemory>
    ensures { IfOk result (λ bytes. bytes.items ≡ journal_text journal.now.items) }
{
    let mut bytes = Vec::new(alloc);
    put_journal(alloc, &mut bytes, journal)?;
    Ok(bytes)
}

// The journal, where it has a file.
fn write_journal<F: Files>(
    alloc: Global,
    name: &Option<FileName>,
    journal: &Journal,
    files: &mut F,
) -> Result<(), Fault>
    ensures ok { OnOk result ((sink : Option (List ℕ)) → WritesAll (journal_writes name.now journal.now.items) (storing sink (F.contents files.old)) (storing sink (F.contents files.new))) }
    ensures err { IfErr result (λ fault. (sink : Option (List ℕ)) → StopsAt (StopsFor no_memory (of_files (F.contents files.old) (F.contents files.new) (F.faults files.old) (F.faults files.new)) fault)
        (journal_writes name.now journal.now.items) (storing sink (F.contents files.old)) (storing sink (F.contents files.new))) }
    ensures counts { (other : List ℕ) → F.faults files.old other ≤ F.faults files.new other }
{
    let Some(name) = name else {
        return Ok(());
    };
    let Ok(bytes) = journal_file(alloc, journal) else {
        return Err(Fault::NoMemory);
    };
    if let Err(_) = write_file(files, name.as_str(), &bytes) {
        return Err(Fault::WriteFault(Which::Journal));
    }
    Ok(())
}

/// What a run writes: its text, the captures that leave, its journal.
///
/// # Errors
/// `WriteFault` where a write failed, `NoMemory` where memory ran out; a prefix was written then.
pub(crate) fn write_all<B: Node, F: Files, O: Sink>(
    alloc: Global,
    core: &Core<B>,
    commands: &[Command],
    ports: &[PortWord],
    cuts: &[Option<u64>],
    of: u64,
    journal_name: &Option<FileName>,
    files: &mut F,
    out: &mut O,
) -> Result<(), Fault>
    requires printable { ArePrintable commands.now (world_of (story core.now)).told }
    requires writable { Every (λ (p : Port). AreWritable p.leaving) (world_of (story core.now)).ports }
    requires cuts { length ports.now ≡ length cuts.now }
    requires few { length ports.now ≤ 64 }
    requires there { length ports.now ≤ length (world_of (story core.now)).ports }
    ensures ok { OnOk result (WritesAll
        (text_write (world_text commands.now (shown_by ports.now cuts.now) of (world_of (story core.now)) (list_any is_stop core.now.journal))
        ∷ (out_writes 0 ports.now (world_of (story core.now)).ports ++ journal_writes journal_name.now core.now.journal))
        (storing (O.contents out.old) (F.contents files.old)) (storing (O.contents out.new) (F.contents files.new))) }
    ensures err { IfErr result (λ fault. StopsAt (StopsFor no_memory (outside (storing (O.contents out.old) (F.contents files.old)) (storing (O.contents out.new) (F.contents files.new))
        (counting (O.faults out.old) (F.faults files.old)) (counting (O.faults out.new) (F.faults files.new))) fault)
        (text_write (world_text commands.now (shown_by ports.now cuts.now) of (world_of (story core.now)) (list_any is_stop core.now.journal))
        ∷ (out_writes 0 ports.now (world_of (story core.now)).ports ++ journal_writes journal_name.now core.now.journal))
        (storing (O.contents out.old) (F.contents files.old)) (storing (O.contents out.new) (F.contents files.new))) }
    ensures counts { (other : List ℕ) → F.faults files.old other ≤ F.faults files.new other }
{
    match print_run(alloc, core, commands, ports, cuts, of, out) {
        Ok(()) => {}
        Err(PrintStop::Fault) => return Err(Fault::WriteFault(Which::Sink)),
        Err(PrintStop::NoMemory) => return Err(Fault::NoMemory),
    }
    if let Err(fault) = write_outs(alloc, core, 0, ports, files) {
        return Err(fault);
    }
    match write_journal(alloc, journal_name, core.journal(), files) {
        Ok(()) => Ok(()),
        Err(fault) => Err(fault),
    }
}
