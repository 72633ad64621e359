// ng_tee(4): passes packets between two hooks, and copies them to two more.
ghost use Rattle.std.specs.Prelude.{◌≡◌, IfOk};
ghost use Rattle.ng_base.specs.Names.{has_name};
ghost use Rattle.ng_machine.specs.Names.{tee_hooks};
ghost use Rattle.ng_machine.specs.State.{blank_of};
ghost use Rattle.ng_plain_types.specs.tee.State.{tee_state};

use crate::tee::stats::{obey, reply};
use ng_base::{Errno, Kind, Name, NoMemory};
use ng_machine::{Body, Counts, Farewell, Outcome};
use ng_message::Msg;
use ng_plan::node::{HookList, Node, absorb_rows};
use ng_plan::{Plan, Way, eval, left, left2right, nothing, right, right2left};
use std::alloc::Global;
use std::marker::Model;
use std::sync::Arc;

/// A node that passes packets between `left` and `right`, and copies them to `left2right` and `right2left`. It counts
/// packets and octets, in and out, of each name of a hook; the counters stay when the hook goes. Its messages are
/// `getstats`, `clrstats` and `getclrstats`, and when it goes at a shutdown its two peers are joined. ng_tee(4).
///
/// A contract sees its hooks, and a row of counters for each of the four names.
#[derive(Drop)]
pub struct TeeNode {
    hooks: HookList,
    rows: Vec<(Name, [u64; 4])>,
}

impl Model for TeeNode {
    ghost use Rattle.ng_plain_types.specs.tee.State.{Tee};

    ghost Value = { Tee };

    ghost view = { λ n. record { hooks = n.hooks.names; rows = n.rows.items } };
}

/// Whether a tee has a hook of this name.
fn is_of_tee(hook: &Name) -> bool
    ensures { result ≡ has_name tee_hooks hook.now }
{
    left() == *hook || right() == *hook || left2right() == *hook || right2left() == *hook
}

impl TeeNode {
    /// What its plan is made of.
    fn way(&self, alloc: Global) -> Result<Way, NoMemory>
        ensures { IfOk result (λ way. way ≡ Way.Ways Kind.Tee self.now.hooks) }
    {
        Ok(Way::Ways {
            kind: Kind::Tee,
            hooks: self.hooks.names(alloc)?,
        })
    }
}

impl Node for TeeNode {
    ghost state = { λ n. tee_state n };

    fn kind(&self) -> Kind {
        Kind::Tee
    }

    fn may(&self, hook: &Name) -> Result<(), Errno> {
        if is_of_tee(hook) {
            Ok(())
        } else {
            Err(Errno::INVAL)
        }
    }

    fn newhook(&mut self, _alloc: Global, hook: &Name) -> Result<(), NoMemory> {
        self.hooks.reserve()?;
        self.hooks.add(*hook);
        Ok(())
    }

    fn cut(&mut self, hook: &Name) {
        self.hooks.cut(hook);
    }

    fn lasting(&self) -> bool {
        false
    }

    fn plan(&self, alloc: Global) -> Result<Option<Arc<Plan>>, NoMemory> {
        Ok(Some(Plan::share(alloc, self.way(alloc)?)?))
    }

    fn absorb(&mut self, counts: &Counts) {
        absorb_rows(self.rows.as_mut_slice(), counts.as_slice());
    }

    fn answer(&self, alloc: Global, msg: &Msg) -> Result<Outcome, NoMemory> {
        reply(alloc, &self.rows, msg.header.cmd, &msg.args.0)
    }

    fn write(&mut self, alloc: Global, body: &Body) -> Result<Outcome, NoMemory> {
        match body {
            Body::Frame { door, packet, .. } => {
                let plan = Plan::share(alloc, self.way(alloc)?)?;
                let outcome = eval(alloc, &plan, door, packet)?;
                absorb_rows(self.rows.as_mut_slice(), outcome.counts.as_slice());
                Ok(outcome)
            }
            Body::Msg(msg) => {
                let outcome = reply(alloc, &self.rows, msg.header.cmd, &msg.args.0)?;
                obey(self.rows.as_mut_slice(), msg.header.cmd, &msg.args.0);
                Ok(outcome)
            }
            _ => Ok(nothing(alloc)),
        }
    }

    fn farewell(&self) -> Farewell {
        Farewell::Bypass {
            a: left(),
            b: right(),
        }
    }
}

/// A tee without hooks, whose counters are 0.
///
/// # Errors
/// `NoMemory` where memory ran out, and for nothing else.
pub fn blank_tee(alloc: Global) -> Result<TeeNode, NoMemory>
    ensures { IfOk result (λ node. tee_state node ≡ blank_of Kind.Tee) }
{
    let mut rows = Vec::new(alloc);
    rows.push((right(), [0; 4]))?;
    rows.push((left(), [0; 4]))?;
    rows.push((right2left(), [0; 4]))?;
    rows.push((left2right(), [0; 4]))?;
    Ok(TeeNode {
        hooks: HookList::new(alloc),
        rows,
    })
}
