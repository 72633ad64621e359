// ng_echo(4): sends each packet back.
ghost use Rattle.std.specs.Prelude.{◌≡◌, IfOk};
ghost use Rattle.ng_machine.specs.State.{blank_of};
ghost use Rattle.ng_plain_types.specs.simple.State.{echo_state};

use ng_base::{Errno, Kind, Name, NoMemory};
use ng_machine::{Body, Counts, Farewell, Outcome};
use ng_message::Msg;
use ng_plan::node::{HookList, Node};
use ng_plan::{Plan, Way, eval, fails, nothing};
use std::alloc::Global;
use std::marker::Model;
use std::sync::Arc;

/// A node that sends each packet back out of the hook that it came by. It has no messages. ng_echo(4).
///
/// A contract sees it as the names of its hooks.
#[derive(Drop)]
pub struct EchoNode {
    hooks: HookList,
}

impl Model for EchoNode {
    ghost use Rattle.std.specs.Prelude.{ℕ, List};

    ghost Value = { List (List ℕ) };

    ghost view = { λ n. n.hooks.names };
}

impl Node for EchoNode {
    ghost state = { λ n. echo_state n };

    fn kind(&self) -> Kind {
        Kind::Echo
    }

    fn may(&self, _hook: &Name) -> Result<(), Errno> {
        Ok(())
    }

    fn newhook(&mut self, _alloc: Global, hook: &Name) -> Result<(), NoMemory> {
        self.hooks.reserve()?;
        self.hooks.add(*hook);
        Ok(())
    }

    fn cut(&mut self, hook: &Name) {
        self.hooks.cut(hook);
    }

    fn lasting(&self) -> bool {
        false
    }

    fn plan(&self, alloc: Global) -> Result<Option<Arc<Plan>>, NoMemory> {
        Ok(Some(Plan::share(alloc, Way::Echo)?))
    }

    fn absorb(&mut self, _counts: &Counts) {}

    fn answer(&self, alloc: Global, _msg: &Msg) -> Result<Outcome, NoMemory> {
        Ok(fails(alloc, Errno::INVAL))
    }

    fn write(&mut self, alloc: Global, body: &Body) -> Result<Outcome, NoMemory> {
        match body {
            Body::Frame { door, packet, .. } => {
                let plan = Plan::share(alloc, Way::Echo)?;
                eval(alloc, &plan, door, packet)
            }
            Body::Msg(_) => Ok(fails(alloc, Errno::INVAL)),
            _ => Ok(nothing(alloc)),
        }
    }

    fn farewell(&self) -> Farewell {
        Farewell::Plain
    }
}

/// An echo without hooks.
///
/// # Errors
/// `NoMemory` where memory ran out, and for nothing else.
pub fn blank_echo(alloc: Global) -> Result<EchoNode, NoMemory>
    ensures { IfOk result (λ node. echo_state node ≡ blank_of Kind.Echo) }
{
    Ok(EchoNode {
        hooks: HookList::new(alloc),
    })
}
