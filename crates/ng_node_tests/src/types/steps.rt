// What is done to a node, and what has to come of it.
use crate::types::fields::{Field, laid_out};
use ng_base::Errno;
use ng_machine::{Exit, Outcome};
use std::alloc::Global;
use std::test::Fail;

/// How a packet comes to a node.
#[derive(Clone, Copy)]
pub(super) enum Way {
    /// By this hook.
    Hook(&'static [u8]),
    /// By this hook to the node's plan, which works on it for the node. The node then counts it.
    Plan(&'static [u8]),
    /// By the wire.
    Wire,
}

/// What has to come of a packet.
#[derive(Clone, Copy)]
pub(super) enum Fate {
    /// It goes out of these hooks as it came, in order, or is discarded where there are none.
    Out(&'static [&'static [u8]]),
    /// It goes out of this hook as these bytes.
    As(&'static [u8], &'static [Field]),
    /// It leaves the graph.
    Leaves(Exit),
    /// It is refused with this error, and goes nowhere.
    Refused(Errno),
}

/// A packet and the hook that it comes by.
pub(super) type Arrival = (&'static [u8], &'static [Field]);

/// What is done to a node.
#[derive(Clone, Copy)]
pub(super) enum Step {
    /// A hook of this name is made.
    Hook(&'static [u8]),
    /// The type takes no hook of this name.
    NoHook(&'static [u8]),
    /// The hook of this name is cut.
    Cut(&'static [u8]),
    /// A packet comes in this way.
    Packet(Way, &'static [Field], Fate),
    /// Two packets, each by a hook, are worked on beside each other by one plan, and what the second counts is added
    /// first.
    Beside(Arrival, Arrival),
    /// So many seconds go by.
    Wait(u32),
    /// A message of this number and with these arguments is taken, or refused with this error.
    Tell(u32, &'static [Field], Errno),
    /// A message of this number and with these arguments is answered so.
    Ask(u32, &'static [Field], &'static [Field]),
    /// The node stays without hooks, or doesn't.
    Lasts(bool),
    /// The node has a plan, or its packets change it.
    HasPlan(bool),
}

/// Steps from a blank node on, and what they show.
#[derive(Clone, Copy)]
pub(super) struct Case {
    pub(super) shows: &'static str,
    pub(super) steps: &'static [Step],
}

// Whether these bytes go out of these hooks, and nothing else goes out.
fn goes_out(outcome: &Outcome, bytes: &[u8], hooks: &[&[u8]]) -> bool {
    let sends = outcome.sends.as_slice();
    if sends.len() != hooks.len() || !outcome.leaves.as_slice().is_empty() {
        return false;
    }
    for ((hook, packet), name) in sends.iter().zip(hooks) {
        if hook.bytes() != *name || packet.bytes() != bytes {
            return false;
        }
    }
    true
}

// Whether these bytes leave the graph in this way, and nothing else does.
fn leaves(outcome: &Outcome, bytes: &[u8], exit: Exit) -> bool {
    match outcome.leaves.as_slice() {
        [(way, packet)] => {
            *way == exit && packet.bytes() == bytes && outcome.sends.as_slice().is_empty()
        }
        _ => false,
    }
}

/// Whether this is what comes of the packet.
pub(super) fn is_fate(
    alloc: Global,
    outcome: &Outcome,
    bytes: &[u8],
    fate: &Fate,
) -> Result<bool, Fail> {
    match fate {
        Fate::Out(hooks) => Ok(outcome.errno == Errno::NONE && goes_out(outcome, bytes, hooks)),
        Fate::As(hook, fields) => Ok(goes_out(outcome, &laid_out(alloc, fields)?, &[*hook])),
        Fate::Leaves(exit) => Ok(leaves(outcome, bytes, *exit)),
        Fate::Refused(errno) => Ok(outcome.errno == *errno && goes_out(outcome, bytes, &[])),
    }
}

/// Whether these bytes are what is answered.
pub(super) fn has_answer(outcome: &Outcome, bytes: &[u8]) -> bool {
    match &outcome.answer {
        Some(answer) => answer.0.as_slice() == bytes,
        None => false,
    }
}
