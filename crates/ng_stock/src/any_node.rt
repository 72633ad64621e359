// A node of any of the types.
ghost use Rattle.std.specs.Prelude.{◌≡◌, IfOk};
ghost use Rattle.ng_stock.specs.Any.{any_state};

use ng_base::{Errno, Kind, Name, NoMemory};
use ng_filter_types::bpf::BpfNode;
use ng_filter_types::patch::PatchNode;
use ng_filter_types::{EtfNode, MacsetNode};
use ng_machine::{Body, Counts, Farewell, Outcome};
use ng_message::Msg;
use ng_plain_types::edge::{EtherNode, SocketNode};
use ng_plain_types::simple::{EchoNode, HoleNode, HubNode, SplitNode};
use ng_plain_types::tee::TeeNode;
use ng_plan::Plan;
use ng_plan::node::Node;
use ng_switch_types::bridge::BridgeNode;
use ng_switch_types::one2many::One2manyNode;
use ng_switch_types::vlan::VlanNode;
use std::alloc::Global;
use std::marker::Model;
use std::sync::Arc;

/// A node of one of the types.
#[derive(Drop)]
pub enum TypedNode {
    /// ng_hub(4)
    Hub(HubNode),
    /// ng_hole(4)
    Hole(HoleNode),
    /// ng_echo(4)
    Echo(EchoNode),
    /// ng_tee(4)
    Tee(TeeNode),
    /// ng_split(4)
    Split(SplitNode),
    /// ng_one2many(4)
    One2many(One2manyNode),
    /// ng_bridge(4)
    Bridge(BridgeNode),
    /// ng_vlan(4)
    Vlan(VlanNode),
    /// ng_patch(4)
    Patch(PatchNode),
    /// ng_bpf(4)
    Bpf(BpfNode),
    /// ng_ether(4)
    Ether(EtherNode),
    /// ng_socket(4)
    Socket(SocketNode),
    /// ng_etf(4)
    Etf(EtfNode),
    /// ng_macset(4)
    Macset(MacsetNode),
}

// The node of whichever type, in a call.
macro_rules! each {
    ($any:expr, $node:ident => $call:expr) => {
        match $any {
            TypedNode::Hub($node) => $call,
            TypedNode::Hole($node) => $call,
            TypedNode::Echo($node) => $call,
            TypedNode::Tee($node) => $call,
            TypedNode::Split($node) => $call,
            TypedNode::One2many($node) => $call,
            TypedNode::Bridge($node) => $call,
            TypedNode::Vlan($node) => $call,
            TypedNode::Patch($node) => $call,
            TypedNode::Bpf($node) => $call,
            TypedNode::Ether($node) => $call,
            TypedNode::Socket($node) => $call,
            TypedNode::Etf($node) => $call,
            TypedNode::Macset($node) => $call,
        }
    };
}

/// A node of one of the types, in a place of its own: a seat that takes an item for the node, and hands both on, moves a pointer.
///
/// A contract sees the node of the type.
#[derive(Drop)]
pub struct AnyNode {
    place: Box<TypedNode>,
}

impl Model for AnyNode {
    ghost use Rattle.ng_stock.specs.declared.any_node.TypedNode.{TypedNode};

    ghost Value = { TypedNode };

    ghost view = { λ n. n.place.value };
}

impl AnyNode {
    /// The node of the type, in a place of its own.
    ///
    /// # Errors
    /// `NoMemory` where memory ran out, and for nothing else.
    pub fn new(alloc: Global, node: TypedNode) -> Result<AnyNode, NoMemory>
        ensures { IfOk result (λ any. any ≡ node) }
    {
        Ok(AnyNode {
            place: Box::new(alloc, node)?,
        })
    }
}

/// A call goes to the node of the type.
impl Node for AnyNode {
    ghost state = { any_state };

    fn kind(&self) -> Kind {
        each!(&*self.place, node => node.kind())
    }

    fn may(&self, hook: &Name) -> Result<(), Errno> {
        each!(&*self.place, node => node.may(hook))
    }

    fn newhook(&mut self, alloc: Global, hook: &Name) -> Result<(), NoMemory> {
        each!(&mut *self.place, node => node.newhook(alloc, hook))
    }

    fn cut(&mut self, hook: &Name) {
        each!(&mut *self.place, node => node.cut(hook))
    }

    fn lasting(&self) -> bool {
        each!(&*self.place, node => node.lasting())
    }

    fn plan(&self, alloc: Global) -> Result<Option<Arc<Plan>>, NoMemory> {
        each!(&*self.place, node => node.plan(alloc))
    }

    fn absorb(&mut self, counts: &Counts) {
        each!(&mut *self.place, node => node.absorb(counts))
    }

    fn answer(&self, alloc: Global, msg: &Msg) -> Result<Outcome, NoMemory> {
        each!(&*self.place, node => node.answer(alloc, msg))
    }

    fn write(&mut self, alloc: Global, body: &Body) -> Result<Outcome, NoMemory> {
        each!(&mut *self.place, node => node.write(alloc, body))
    }

    fn farewell(&self) -> Farewell {
        each!(&*self.place, node => node.farewell())
    }
}
