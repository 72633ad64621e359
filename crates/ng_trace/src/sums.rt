// How often something ended at a node.
ghost use Rattle.std.specs.Prelude.{◌≡◌, ◌++◌, ◌∷◌, [], ◌+◌, ◌-◌, ◌<◌, length, replicate, OnOk};
ghost use Rattle.ng_machine.specs.Totals.{cause_number};
ghost use Rattle.ng_trace.specs.Watched.{blank_sum, count_one, ending_number, sum_at, sum_with, widened};

use crate::{Ending, Label};
use ng_base::{Cause, NoMemory};

/// How often something ended at a node, by the numbers of endings.
#[derive(Clone, Copy)]
pub struct NodeSum {
    /// The node as it was when something ended there last.
    pub label: Label,
    /// The counts.
    pub counts: [u64; 14],
}

// A cause has the number of its variant.
fn cause_number(cause: Cause) -> usize
    ensures number { result ≡ cause_number cause }
    ensures low { result < 7 }
{
    match cause {
        Cause::NodeGone => 1,
        Cause::HookGone => 2,
        Cause::Budget => 3,
        Cause::NoPeer => 4,
        Cause::Full => 5,
        Cause::Spool => 6,
    }
}

/// The number of an ending.
fn ending_number(why: Ending) -> usize
    ensures number { result ≡ ending_number why }
    ensures low { result < 14 }
{
    match why {
        Ending::Ended => 0,
        Ending::Refused(_) => 1,
        Ending::Lost(cause) => 1 + cause_number(cause),
        Ending::Dropped(cause) => 7 + cause_number(cause),
    }
}

// One more of an ending.
fn count_one(why: Ending, counts: &mut [u64; 14]) -> Result<(), NoMemory>
    ensures { OnOk result (counts.new ≡ count_one why counts.old) }
{
    let at = ending_number(why);
    let Some(count) = counts[at].checked_add(1) else {
        return Err(NoMemory);
    };
    counts[at] = count;
    Ok(())
}

// One place more, which has the label and counts nothing.
fn push_blank(label: &Label, sums: &mut Vec<NodeSum>) -> Result<(), NoMemory>
    ensures { OnOk result (sums.new.items ≡ sums.old.items ++ blank_sum label.now ∷ []) }
{
    let Label { node, name, kind } = *label;
    sums.push(NodeSum {
        label: Label { node, name, kind },
        counts: [0; 14],
    })?;
    Ok(())
}

// A place for the node of that label. New places have the label, and count nothing.
fn widen(label: &Label, sums: &mut Vec<NodeSum>) -> Result<(), NoMemory>
    ensures { OnOk result (sums.new.items ≡ widened label.now sums.old.items) }
{
    let wanted = (label.node.0 as usize + 1).saturating_sub(sums.len());
    for _ in 0..wanted {
        push_blank(label, sums)?;
    }
    Ok(())
}

/// One more of an ending at a node.
///
/// # Errors
/// `NoMemory` where memory ran out, or where a count would be greater than 2^64 - 1.
pub(crate) fn sum_up(label: &Label, why: Ending, sums: &mut Vec<NodeSum>) -> Result<(), NoMemory>
    ensures { OnOk result (sums.new.items ≡ sum_at label.now.node.0 label.now why (widened label.now sums.old.items)) }
{
    let node = label.node.0 as usize;
    widen(label, sums)?;
    let sum = &mut sums[node];
    count_one(why, &mut sum.counts)?;
    sum.label = *label;
    Ok(())
}
