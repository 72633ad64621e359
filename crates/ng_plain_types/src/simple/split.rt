// ng_split(4): parts what comes and what goes.
ghost use Rattle.std.specs.Prelude.{◌≡◌, ◌∷◌, [], IfOk};
ghost use Rattle.ng_base.specs.Names.{has_name};
ghost use Rattle.ng_machine.specs.Names.{in_hook, out_hook, mixed};
ghost use Rattle.ng_machine.specs.State.{blank_of};
ghost use Rattle.ng_plain_types.specs.simple.State.{split_state};

use ng_base::{Errno, Kind, Name, NoMemory};
use ng_machine::{Body, Counts, Farewell, Outcome};
use ng_message::Msg;
use ng_plan::node::{HookList, Node};
use ng_plan::{Plan, Way, eval, fails, in_hook, mixed, nothing, out_hook};
use std::alloc::Global;
use std::marker::Model;
use std::sync::Arc;

/// A node that sends what comes by `in` out of `mixed`, and what comes by `mixed` out of `out`. A packet that comes by `out`
/// is refused with `EINVAL`, and one for a hook that is not there goes nowhere. It has no messages. ng_split(4).
///
/// A contract sees it as the names of its hooks.
#[derive(Drop)]
pub struct SplitNode {
    hooks: HookList,
}

impl Model for SplitNode {
    ghost use Rattle.std.specs.Prelude.{ℕ, List};

    ghost Value = { List (List ℕ) };

    ghost view = { λ n. n.hooks.names };
}

/// Whether a split has a hook of this name.
fn is_of_split(hook: &Name) -> bool
    ensures { result ≡ has_name (in_hook ∷ out_hook ∷ mixed ∷ []) hook.now }
{
    in_hook() == *hook || out_hook() == *hook || mixed() == *hook
}

impl SplitNode {
    /// What its plan is made of.
    fn way(&self, alloc: Global) -> Result<Way, NoMemory>
        ensures { IfOk result (λ way. way ≡ Way.Ways Kind.Split self.now) }
    {
        Ok(Way::Ways {
            kind: Kind::Split,
            hooks: self.hooks.names(alloc)?,
        })
    }
}

impl Node for SplitNode {
    ghost state = { λ n. split_state n };

    fn kind(&self) -> Kind {
        Kind::Split
    }

    fn may(&self, hook: &Name) -> Result<(), Errno> {
        if is_of_split(hook) {
            Ok(())
        } else {
            Err(Errno::INVAL)
        }
    }

    fn newhook(&mut self, _alloc: Global, hook: &Name) -> Result<(), NoMemory> {
        self.hooks.reserve()?;
        self.hooks.add(*hook);
        Ok(())
    }

    fn cut(&mut self, hook: &Name) {
        self.hooks.cut(hook);
    }

    fn lasting(&self) -> bool {
        false
    }

    fn plan(&self, alloc: Global) -> Result<Option<Arc<Plan>>, NoMemory> {
        Ok(Some(Plan::share(alloc, self.way(alloc)?)?))
    }

    fn absorb(&mut self, _counts: &Counts) {}

    fn answer(&self, alloc: Global, _msg: &Msg) -> Result<Outcome, NoMemory> {
        Ok(fails(alloc, Errno::INVAL))
    }

    fn write(&mut self, alloc: Global, body: &Body) -> Result<Outcome, NoMemory> {
        match body {
            Body::Frame { door, packet, .. } => {
                let plan = Plan::share(alloc, self.way(alloc)?)?;
                eval(alloc, &plan, door, packet)
            }
            Body::Msg(_) => Ok(fails(alloc, Errno::INVAL)),
            _ => Ok(nothing(alloc)),
        }
    }

    fn farewell(&self) -> Farewell {
        Farewell::Plain
    }
}

/// A split without hooks.
///
/// # Errors
/// `NoMemory` where memory ran out, and for nothing else.
pub fn blank_split(alloc: Global) -> Result<SplitNode, NoMemory>
    ensures { IfOk result (λ node. split_state node ≡ blank_of Kind.Split) }
{
    Ok(SplitNode {
        hooks: HookList::new(alloc),
    })
}
