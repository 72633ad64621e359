// What is done to a graph, and what has to come of it.
ghost use Rattle.std.specs.Prelude.{◌≡◌, ◌≤◌, All, length};
ghost use Rattle.ng_machine.specs.State.{blank_of, kind_of};

use crate::graphs::graph_at_rest::GraphAtRest;
use ng_base::{Errno, Kind, LinkId, Name, NodeId};
use ng_machine::{End, Hook};
use ng_plan::node::Node;
use std::alloc::Global;
use std::process::Abort;
use std::test::Fail;

/// An end of a link: the number of the node, and the name of the hook.
pub(super) type At = (u32, &'static [u8]);

/// A hook that is joined: its name, its link, and the other end.
pub(super) type Joined = (&'static [u8], u32, At);

/// What is done to a graph, or asked of it.
#[derive(Clone, Copy)]
pub(super) enum Step {
    /// A node of this type and name is made.
    Make(Kind, &'static [u8]),
    /// A node of this type is made at the other end of a new hook. Its own hook has this name.
    Sprout(At, Kind, &'static [u8]),
    /// A node gets a name.
    Rename(u32, &'static [u8]),
    /// The first half of a link is made, which has this number.
    AddHalf(At, At, u32),
    /// Two ends are joined by the three steps of a connect.
    Connect(At, At),
    /// A node's box is lent and comes home.
    Lend(u32),
    /// A node's plan is made, and is there then.
    Plan(u32),
    /// A hook is taken away by its link, if it has that.
    Leave(At, u32, bool),
    /// A node goes.
    Retire(u32),
    /// A node goes, and then the hooks of its neighbours, in the order of its own.
    ShutDown(u32, &'static [At]),
    /// A path from a node leads to this node, or nowhere.
    Walk(u32, &'static [u8], Option<u32>),
    /// The name is that of this node, or of none.
    Named(&'static [u8], Option<u32>),
    /// A node gets no hook of that name, with this error.
    MayNot(At, Errno),
    /// There is no such node.
    Gone(u32),
    /// A node has these hooks and no others.
    Hooks(u32, &'static [Joined]),
}

/// Steps from no nodes on, and what they show.
#[derive(Clone, Copy)]
pub(super) struct Case {
    pub(super) shows: &'static str,
    pub(super) steps: &'static [Step],
}

fn end(at: &At) -> Result<End, Fail> {
    Ok(End {
        node: NodeId(at.0),
        hook: Name::read(at.1)?,
    })
}

// A hook that is joined by a link.
fn joined(row: &Joined) -> Result<Hook, Fail> {
    Ok(Hook {
        name: Name::read(row.0)?,
        link: LinkId(row.1),
        peer: end(&row.2)?,
        joined: true,
    })
}

// Whether a node has these hooks and no others.
fn has_hooks<B: Node>(graph: &GraphAtRest<B>, node: u32, rows: &[Joined]) -> Result<bool, Fail> {
    let Some(hooks) = graph.hooks(NodeId(node)) else {
        return Err(Errno::NOENT)?;
    };
    if hooks.len() != rows.len() {
        return Ok(false);
    }
    for (hook, row) in hooks.iter().zip(rows) {
        if *hook != joined(row)? {
            return Ok(false);
        }
    }
    Ok(true)
}

// Joins two ends by the three steps of a connect.
fn connect<B: Node>(
    graph: &mut GraphAtRest<B>,
    alloc: Global,
    ours: &End,
    theirs: &End,
) -> Result<bool, Fail> {
    let link = graph.add_half(alloc, ours, theirs)?;
    graph.join(alloc, theirs, link, ours)?;
    Ok(graph.settle(ours, link))
}

// Removes a node, and then the hooks of its neighbours in the order of its own: the ends that had them.
fn shut_down<B: Node>(
    graph: &mut GraphAtRest<B>,
    alloc: Global,
    id: NodeId,
) -> Result<Vec<End>, Fail> {
    let mut left = Vec::new(alloc);
    let Some(hooks) = graph.hooks(id) else {
        return Err(Errno::NOENT)?;
    };
    let hooks = Vec::from_slice(alloc, hooks)?;
    graph.retire(id);
    for hook in &hooks {
        if graph.leave(&hook.peer, hook.link) {
            left.push(hook.peer)?;
        }
    }
    Ok(left)
}

// Whether these are the ends.
fn are_ends(ends: &[End], rows: &[At]) -> Result<bool, Fail> {
    if ends.len() != rows.len() {
        return Ok(false);
    }
    for (found, row) in ends.iter().zip(rows) {
        if *found != end(row)? {
            return Ok(false);
        }
    }
    Ok(true)
}

// Asks what the step asks: whether the answer is right.
fn ask<B: Node>(graph: &GraphAtRest<B>, step: &Step) -> Result<bool, Fail> {
    match step {
        Step::Walk(from, path, to) => Ok(graph.walk(NodeId(*from), path)? == to.map(NodeId)),
        Step::Named(name, node) => Ok(graph.named(name)? == node.map(NodeId)),
        Step::MayNot(at, errno) => Ok(graph.may(&end(at)?) == Err(*errno)),
        Step::Gone(node) => Ok(graph.kind(NodeId(*node)).is_none()),
        Step::Hooks(node, rows) => has_hooks(graph, *node, rows),
        _ => Ok(false),
    }
}

// Takes away what the step takes away.
fn take_away<B: Node>(
    graph: &mut GraphAtRest<B>,
    alloc: Global,
    step: &Step,
) -> Result<bool, Fail> {
    match step {
        Step::Leave(at, link, is) => Ok(graph.leave(&end(at)?, LinkId(*link)) == *is),
        Step::Retire(node) => Ok(graph.retire(NodeId(*node))),
        Step::ShutDown(node, ends) => { are_ends(&shut_down(graph, alloc, NodeId(*node))?, ends) }
        _ => ask(graph, step),
    }
}

// Takes a step: whether it comes to what it has to.
fn take<B: Node>(graph: &mut GraphAtRest<B>, alloc: Global, step: &Step) -> Result<bool, Fail> {
    match step {
        Step::Make(kind, name) => {
            graph.make(alloc, *kind, name)?;
            Ok(true)
        }
        Step::Sprout(at, kind, hook) => {
            graph.sprout(alloc, &end(at)?, *kind, hook)?;
            Ok(true)
        }
        Step::Rename(node, name) => {
            graph.rename(alloc, NodeId(*node), name)?;
            Ok(true)
        }
        Step::AddHalf(ours, theirs, link) => {
            Ok(graph.add_half(alloc, &end(ours)?, &end(theirs)?)? == LinkId(*link))
        }
        Step::Connect(ours, theirs) => connect(graph, alloc, &end(ours)?, &end(theirs)?),
        Step::Lend(node) => {
            graph.lend_and_give(alloc, NodeId(*node))?;
            Ok(true)
        }
        Step::Plan(node) => graph.plan(alloc, NodeId(*node)),
        _ => take_away(graph, alloc, step),
    }
}

// Takes steps: how many of them, in front of the first that comes to something else.
fn walk<B: Node>(graph: &mut GraphAtRest<B>, alloc: Global, steps: &[Step]) -> Result<usize, Fail> {
    let mut taken = 0usize;
    for step in steps {
        if !take(graph, alloc, step)? {
            return Ok(taken);
        }
        taken = taken.saturating_add(1);
    }
    Ok(taken)
}

/// Tries a case with these boxes.
pub(super) fn try_case<B: Node>(
    rt: &impl Abort,
    alloc: Global,
    stock: Vec<B>,
    case: &Case,
) -> Result<(), Fail>
    requires few { length stock.items ≤ 1000 }
    requires blank { All (λ b. B.state b ≡ blank_of (kind_of (B.state b))) stock.items }
{
    let mut graph = GraphAtRest::new(alloc, stock)?;
    assert_eq!(rt;
        walk(&mut graph, alloc, case.steps)?,
        case.steps.len(),
        "{}",
        case.shows
    );
    Ok(())
}
