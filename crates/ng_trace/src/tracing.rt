// The text of a trace of a journal.
ghost use Rattle.std.specs.Prelude.{◌≡◌, length, map, replicate, take, IfOk};
ghost use Rattle.ng_core.specs.CoreStory.{setting_of, story};
ghost use Rattle.ng_machine.specs.story.Story.{AreFitFor, begun, world_of};
ghost use Rattle.ng_replay.specs.judge.Following.{all_with};
ghost use Rattle.ng_replay.specs.judge.Verdict.{IsVerdict};
ghost use Rattle.ng_replay.specs.declared.judge.verdict.Verdict.TheVariants.{Yes};
ghost use Rattle.ng_trace.specs.Text.{trace_text};
ghost use Rattle.ng_trace.specs.Trace.{trace_of};

use crate::{Arrived, Watched, arrivals, trace_text, watch};
use ng_base::{Name, NoMemory};
use ng_core::Core;
use ng_journal::kept::Journal;
use ng_machine::Input;
use ng_plan::node::Node;
use ng_replay::judge::{Verdict, know_story};
use std::alloc::Global;

// The text, of the packets among the first inputs, by their number.
fn text_of(
    alloc: Global,
    names: &[Name],
    arrived: &[Option<Arrived>],
    fed: u64,
    watched: &Watched,
) -> Result<Vec<u8>, NoMemory>
    ensures { IfOk result (λ text. text.items ≡ trace_text names.now (replicate (length names.now) 0) (take fed arrived.now) watched.now) }
{
    let fed = (fed as usize).min(arrived.len());
    trace_text(alloc, names, &arrived[..fed], watched)
}

/// Judges a journal as a replay does, by a core that was just made and all inputs of its run, and gives the text of its trace: a
/// line for each packet that reached nothing, in order of feeding, or a line that there is none; and how often what ended at each
/// node. The text is of use only after a `Yes`. `names` are those of the ports, and `seats` is the number that the core was made
/// with.
///
/// # Errors
/// `NoMemory` where memory ran out, or where a count would be greater than 2^64 - 1; the core is of no more use then.
pub fn trace<B: Node>(
    alloc: Global,
    core: &mut Core<B>,
    seats: u32,
    names: &[Name],
    inputs: Vec<Input>,
    journal: &Journal,
) -> Result<(Verdict, Vec<u8>), NoMemory>
    requires begun { story core.old ≡ begun (setting_of core.old) }
    requires seats { seats ≡ core.old.seats }
    requires fits { AreFitFor (story core.old) inputs.items }
    ensures verdict { IfOk result (λ judged. IsVerdict (all_with (story core.old) inputs.items) journal.now.items judged.0) }
    ensures text { IfOk result (λ judged. judged.0 ≡ Yes → judged.1.items ≡ trace_of names.now (all_with (story core.old) inputs.items) journal.now.items) }
{
    know_story(core);
    let arrived = arrivals(alloc, &inputs)?;
    let (verdict, watched) = watch(alloc, core, seats, inputs, journal)?;
    let text = text_of(alloc, names, &arrived, core.fed(), &watched)?;
    Ok((verdict, text))
}
