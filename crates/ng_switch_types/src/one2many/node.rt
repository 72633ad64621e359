// A node of the type one2many.
ghost use Rattle.std.specs.Prelude.{◌≡◌, IfOk};
ghost use Rattle.ng_machine.specs.Rules.{accepts_hook};
ghost use Rattle.ng_machine.specs.State.{blank_of};
ghost use Rattle.ng_switch_types.specs.one2many.Node.{one2many_state};

use crate::one2many::dealing::deal;
use crate::one2many::messages::{obey, reply};
use crate::one2many::one2many::One2many;
use ng_base::{Errno, Kind, Name, NoMemory};
use ng_machine::{Body, Counts, Farewell, Outcome};
use ng_message::Msg;
use ng_plan::node::Node;
use ng_plan::{Plan, many, nothing, one};
use std::alloc::Global;
use std::marker::Model;
use std::sync::Arc;

/// A node that deals the packets of its hook `one` out to its hooks `many0` to `many63`, and brings theirs to `one`.
/// ng_one2many(4).
///
/// A contract sees its configuration, its cursor, and its hooks, each with a row of counters.
#[derive(Drop)]
pub struct One2manyNode {
    one2many: One2many,
}

impl Model for One2manyNode {
    ghost use Rattle.ng_machine.specs.kinds.One2many as machine;

    ghost Value = { machine.One2many };

    ghost view = { λ n. n.one2many };
}

/// Whether the type has a hook of this name.
fn is_of_type(hook: &Name) -> bool
    ensures { result ≡ accepts_hook Kind.One2many hook.now }
{
    if *hook == one() {
        return true;
    }
    for link in 0..64 {
        if many(link) == *hook {
            return true;
        }
    }
    false
}

impl Node for One2manyNode {
    ghost state = { λ n. one2many_state n };

    fn kind(&self) -> Kind {
        Kind::One2many
    }

    fn may(&self, hook: &Name) -> Result<(), Errno> {
        if is_of_type(hook) {
            Ok(())
        } else {
            Err(Errno::INVAL)
        }
    }

    #[tactic(auto, using(crate::proofs::one2many::States::state_added, crate::proofs::one2many::States::state_undone))]
    fn newhook(&mut self, _alloc: Global, hook: &Name) -> Result<(), NoMemory> {
        self.one2many.add_hook(hook)
    }

    #[tactic(auto, using(crate::proofs::one2many::States::state_cut))]
    fn cut(&mut self, hook: &Name) {
        self.one2many.cut_hook(hook);
    }

    fn lasting(&self) -> bool {
        false
    }

    fn plan(&self, _alloc: Global) -> Result<Option<Arc<Plan>>, NoMemory> {
        Ok(None)
    }

    #[tactic(auto, using(crate::proofs::one2many::States::state_absorbed))]
    fn absorb(&mut self, counts: &Counts) {
        self.one2many.absorb(counts.as_slice());
    }

    fn answer(&self, alloc: Global, msg: &Msg) -> Result<Outcome, NoMemory> {
        reply(alloc, &self.one2many, msg.header.cmd, &msg.args.0)
    }

    #[tactic(auto, using(crate::proofs::one2many::States::state_dealt, crate::proofs::one2many::States::state_kept))]
    fn write(&mut self, alloc: Global, body: &Body) -> Result<Outcome, NoMemory> {
        match body {
            Body::Frame { door, packet, .. } => {
                let outcome = deal(alloc, &self.one2many, door, packet)?;
                self.one2many.settle(door, outcome.counts.as_slice());
                Ok(outcome)
            }
            Body::Msg(msg) => {
                let outcome = reply(alloc, &self.one2many, msg.header.cmd, &msg.args.0)?;
                obey(&mut self.one2many, msg.header.cmd, &msg.args.0);
                Ok(outcome)
            }
            _ => Ok(nothing(alloc)),
        }
    }

    fn farewell(&self) -> Farewell {
        Farewell::Plain
    }
}

/// A node of the type without hooks.
///
/// # Errors
/// `NoMemory` where memory ran out, and for nothing else.
pub fn blank_one2many(alloc: Global) -> Result<One2manyNode, NoMemory>
    ensures { IfOk result (λ node. one2many_state node ≡ blank_of Kind.One2many) }
{
    Ok(One2manyNode {
        one2many: One2many::new(alloc),
    })
}
