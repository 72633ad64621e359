// The blank nodes of a run, where the work of a one2many on a packet waits until another one's has begun.
ghost use Rattle.std.specs.Prelude.{◌≡◌, map, IfOk};
ghost use Rattle.ng_core.specs.Stocked.{IsStocked};
ghost use Rattle.ng_stock.specs.Any.{any_state};

use ng_base::{Errno, Kind, Name, NoMemory};
use ng_machine::{Body, Counts, Farewell, Outcome};
use ng_message::Msg;
use ng_plan::Plan;
use ng_plan::node::Node;
use ng_stock::AnyNode;
use std::alloc::Global;
use std::sync::Arc;
use std::sync::atomic::{AtomicU32, Ordering};
use std::thread;

// It looks so often whether the other has begun.
const LOOKS: u32 = 10_000_000;

/// How many of two such writes have begun, and how many waited in vain.
#[derive(Drop)]
pub(super) struct Writes {
    pub(super) begun: AtomicU32,
    pub(super) in_vain: AtomicU32,
}

impl Writes {
    pub(super) fn new() -> Self {
        Writes {
            begun: AtomicU32::new(0),
            in_vain: AtomicU32::new(0),
        }
    }

    // Begins one, and waits until both have begun.
    fn begin(&self) {
        self.begun.fetch_add(1, Ordering::SeqCst);
        for _ in 0..LOOKS {
            if self.begun.load(Ordering::SeqCst) >= 2 {
                return;
            }
            thread::yield_now();
        }
        self.in_vain.fetch_add(1, Ordering::SeqCst);
    }
}

/// A node of the program. A one2many waits so before each write.
#[derive(Drop)]
pub(super) struct WaitingNode {
    node: AnyNode,
    writes: Arc<Writes>,
}

impl WaitingNode {
    fn wait(&self) {
        if self.node.kind() == Kind::One2many {
            self.writes.begin();
        }
    }
}

/// A call goes to the node inside.
impl Node for WaitingNode {
    ghost state = { λ n. any_state n.node };

    fn kind(&self) -> Kind {
        self.node.kind()
    }

    fn may(&self, hook: &Name) -> Result<(), Errno> {
        self.node.may(hook)
    }

    fn newhook(&mut self, alloc: Global, hook: &Name) -> Result<(), NoMemory> {
        self.node.newhook(alloc, hook)
    }

    fn cut(&mut self, hook: &Name) {
        self.node.cut(hook);
    }

    fn lasting(&self) -> bool {
        self.node.lasting()
    }

    fn plan(&self, alloc: Global) -> Result<Option<Arc<Plan>>, NoMemory> {
        self.node.plan(alloc)
    }

    fn absorb(&mut self, counts: &Counts) {
        self.node.absorb(counts);
    }

    fn answer(&self, alloc: Global, msg: &Msg) -> Result<Outcome, NoMemory> {
        self.node.answer(alloc, msg)
    }

    fn write(&mut self, alloc: Global, body: &Body) -> Result<Outcome, NoMemory> {
        self.wait();
        self.node.write(alloc, body)
    }

    fn farewell(&self) -> Farewell {
        self.node.farewell()
    }
}

// The same nodes, with what their writes have in common.
fn with_writes(
    alloc: Global,
    stock: Vec<AnyNode>,
    writes: &Arc<Writes>,
) -> Result<Vec<WaitingNode>, NoMemory>
    ensures { IfOk result (λ nodes. map (λ n. any_state n.node) nodes.items ≡ map any_state stock.items) }
{
    let mut nodes = Vec::new(alloc);
    for node in stock {
        let writes = Arc::try_clone(writes)?;
        nodes.push(WaitingNode { node, writes })?;
    }
    Ok(nodes)
}

/// The same blank nodes, of which the one2manys wait for each other.
pub(super) fn waiting_nodes(
    alloc: Global,
    stock: Vec<AnyNode>,
    writes: &Arc<Writes>,
) -> Result<Vec<WaitingNode>, NoMemory>
    requires { IsStocked any_state stock.items }
    ensures { IfOk result (λ nodes. IsStocked (λ n. any_state n.node) nodes.items) }
{
    let nodes = with_writes(alloc, stock, writes)?;
    Ok(nodes)
}
