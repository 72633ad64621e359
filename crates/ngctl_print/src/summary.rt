// The four lines at the end of the text.
ghost use Rattle.std.specs.Prelude.{◌≡◌, map, IfOk, string_bytes};
ghost use Rattle.ngctl_print.specs.Prints.{Prints};
ghost use Rattle.ngctl_print.specs.Text.{fed_line, dropped_line, lost_line, graph_line, summary_lines, summary_text};

use crate::PrintStop;
use crate::line::put_line;
use ng_machine::Totals;
use ng_outside::Sink;
use std::alloc::{AllocError, Global};

#[tactic(auto, unfolding(crate::specs::Text::fed_line))]
fn fed_line(
    alloc: Global,
    totals: &Totals,
    fed: u64,
    of: u64,
    stopped: bool,
) -> Result<String, AllocError>
    ensures { IfOk result (λ line. string_bytes line ≡ fed_line totals.now fed of stopped) }
{
    let Totals {
        applied,
        refused,
        ..
    } = *totals;
    let end = if stopped { ", stopped" } else { "" };
    format!(in alloc;
        "summary: fed {fed} of {of}, applied {applied}, data refused {refused}{end}\n"
    )
}

#[tactic(auto, unfolding(crate::specs::Text::dropped_line))]
fn dropped_line(alloc: Global, totals: &Totals) -> Result<String, AllocError>
    ensures { IfOk result (λ line. string_bytes line ≡ dropped_line totals.now) }
{
    let Totals {
        node_gone,
        hook_gone,
        budget,
        ..
    } = *totals;
    format!(in alloc; "dropped: node gone {node_gone}, hook gone {hook_gone}, budget {budget}\n")
}

#[tactic(auto, unfolding(crate::specs::Text::lost_line))]
fn lost_line(alloc: Global, totals: &Totals) -> Result<String, AllocError>
    ensures { IfOk result (λ line. string_bytes line ≡ lost_line totals.now) }
{
    let Totals {
        no_peer,
        peer_gone,
        full,
        spool,
        ..
    } = *totals;
    format!(in alloc;
        "lost: no peer {no_peer}, node gone {peer_gone}, full {full}, spool {spool}\n"
    )
}

#[tactic(auto, unfolding(crate::specs::Text::graph_line))]
fn graph_line(alloc: Global, totals: &Totals) -> Result<String, AllocError>
    ensures { IfOk result (λ line. string_bytes line ≡ graph_line totals.now) }
{
    let Totals { nodes, hooks, .. } = *totals;
    format!(in alloc; "graph: nodes {nodes}, hooks {hooks}\n")
}

fn summary_lines(
    alloc: Global,
    totals: &Totals,
    fed: u64,
    of: u64,
    stopped: bool,
) -> Result<[String; 4], AllocError>
    ensures { IfOk result (λ lines. map string_bytes lines ≡ summary_lines totals.now fed of stopped) }
{
    let first = fed_line(alloc, totals, fed, of, stopped)?;
    let dropped = dropped_line(alloc, totals)?;
    let lost = lost_line(alloc, totals)?;
    let graph = graph_line(alloc, totals)?;
    Ok([first, dropped, lost, graph])
}

/// Puts the summary of a run, four lines: how many inputs were fed of how many, how many items were
/// applied, dropped and lost, and the size of the graph at the end. `stopped` tells that the run
/// stopped before its end.
///
/// # Errors
/// `Fault` where the sink failed, `NoMemory` for want of memory. A front of the text was put then.
pub fn print_summary<O: Sink>(
    alloc: Global,
    totals: &Totals,
    fed: u64,
    of: u64,
    stopped: bool,
    out: &mut O,
) -> Result<(), PrintStop>
    ensures { Prints (O.contents out.old) (O.contents out.new) (O.faults out.old) (O.faults out.new) result (summary_text totals.now fed of stopped) }
{
    let lines = summary_lines(alloc, totals, fed, of, stopped)?;
    for line in &lines {
        put_line(out, line.as_bytes())?;
    }
    Ok(())
}
