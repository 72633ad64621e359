// Nodes for whose work there is no memory.
ghost use Rattle.std.specs.Prelude.{◌≡◌, IfOk};
ghost use Rattle.ng_stock.specs.Any.{any_state};

use ng_base::{Errno, Kind, Name, NoMemory};
use ng_machine::{Body, Counts, Farewell, Outcome};
use ng_message::Msg;
use ng_plan::Plan;
use ng_plan::node::Node;
use ng_stock::AnyNode;
use std::alloc::Global;
use std::marker::Model;
use std::sync::Arc;

/// A node that finds no memory whenever it is to work on anything itself. A packet that a plan works on doesn't come
/// to it.
///
/// A contract sees the node of the type.
#[derive(Drop)]
pub(super) struct StarvedNode {
    node: AnyNode,
}

impl Model for StarvedNode {
    ghost use Rattle.ng_stock.specs.declared.any_node.TypedNode.{TypedNode};

    ghost Value = { TypedNode };

    ghost view = { λ n. n.node };
}

/// All other calls go to the node inside.
impl Node for StarvedNode {
    ghost state = { any_state };

    fn kind(&self) -> Kind {
        self.node.kind()
    }

    fn may(&self, hook: &Name) -> Result<(), Errno> {
        self.node.may(hook)
    }

    fn newhook(&mut self, alloc: Global, hook: &Name) -> Result<(), NoMemory> {
        self.node.newhook(alloc, hook)
    }

    fn cut(&mut self, hook: &Name) {
        self.node.cut(hook);
    }

    fn lasting(&self) -> bool {
        self.node.lasting()
    }

    fn plan(&self, alloc: Global) -> Result<Option<Arc<Plan>>, NoMemory> {
        self.node.plan(alloc)
    }

    fn absorb(&mut self, counts: &Counts) {
        self.node.absorb(counts);
    }

    fn answer(&self, alloc: Global, msg: &Msg) -> Result<Outcome, NoMemory> {
        self.node.answer(alloc, msg)
    }

    fn write(&mut self, _alloc: Global, _body: &Body) -> Result<Outcome, NoMemory> {
        Err(NoMemory)
    }

    fn farewell(&self) -> Farewell {
        self.node.farewell()
    }
}

/// The nodes, each without memory for its work.
///
/// # Errors
/// `NoMemory` where memory ran out, and for nothing else.
pub(super) fn starve(alloc: Global, nodes: Vec<AnyNode>) -> Result<Vec<StarvedNode>, NoMemory>
    ensures { IfOk result (λ starved. starved.items ≡ nodes.items) }
{
    let mut starved = Vec::new(alloc);
    for node in nodes {
        starved.push(StarvedNode { node })?;
    }
    Ok(starved)
}
