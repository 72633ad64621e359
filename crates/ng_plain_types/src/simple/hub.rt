// ng_hub(4): sends each packet out of every other hook.
ghost use Rattle.std.specs.Prelude.{◌≡◌, IfOk};
ghost use Rattle.ng_machine.specs.kinds.Hub.{hub_message};
ghost use Rattle.ng_machine.specs.State.{blank_of};
ghost use Rattle.ng_plain_types.specs.simple.State.{hub_state};

use ng_base::{Errno, Kind, Name, NoMemory};
use ng_machine::{Body, Counts, Farewell, Outcome};
use ng_message::Msg;
use ng_plan::node::{HookList, Node};
use ng_plan::{Plan, Way, eval, fails, nothing};
use std::alloc::Global;
use std::marker::Model;
use std::sync::Arc;

/// `NGM_HUB_SET_PERSISTENT`.
const SET_PERSISTENT: u32 = 1;

/// A node that sends each packet out of every hook but the one that it came by. After `setpersistent` it stays without
/// hooks. ng_hub(4).
///
/// A contract sees its hooks, and whether it stays without them.
#[derive(Drop)]
pub struct HubNode {
    hooks: HookList,
    persistent: bool,
}

impl Model for HubNode {
    ghost use Rattle.ng_plain_types.specs.simple.State.{Hub};

    ghost Value = { Hub };

    ghost view = { λ n. record { hooks = n.hooks.names; persistent = n.persistent } };
}

impl HubNode {
    /// What its plan is made of.
    fn way(&self, alloc: Global) -> Result<Way, NoMemory>
        ensures { IfOk result (λ way. way ≡ Way.Fan self.now.hooks) }
    {
        Ok(Way::Fan {
            hooks: self.hooks.names(alloc)?,
        })
    }

    /// Works on a message: `setpersistent` is the only one, and has no arguments.
    fn obey(&mut self, alloc: Global, number: u32, args: &[u8]) -> Outcome
        ensures hooks { self.new.hooks ≡ self.old.hooks }
        ensures after { self.new.persistent ≡ (hub_message self.old.persistent number args.now).after }
        ensures outcome { result ≡ (hub_message self.old.persistent number args.now).outcome }
    {
        if number != SET_PERSISTENT || !args.is_empty() {
            return fails(alloc, Errno::INVAL);
        }
        self.persistent = true;
        nothing(alloc)
    }
}

impl Node for HubNode {
    ghost state = { λ n. hub_state n };

    fn kind(&self) -> Kind {
        Kind::Hub
    }

    fn may(&self, _hook: &Name) -> Result<(), Errno> {
        Ok(())
    }

    fn newhook(&mut self, _alloc: Global, hook: &Name) -> Result<(), NoMemory> {
        self.hooks.reserve()?;
        self.hooks.add(*hook);
        Ok(())
    }

    fn cut(&mut self, hook: &Name) {
        self.hooks.cut(hook);
    }

    fn lasting(&self) -> bool {
        self.persistent
    }

    fn plan(&self, alloc: Global) -> Result<Option<Arc<Plan>>, NoMemory> {
        Ok(Some(Plan::share(alloc, self.way(alloc)?)?))
    }

    fn absorb(&mut self, _counts: &Counts) {}

    fn answer(&self, alloc: Global, _msg: &Msg) -> Result<Outcome, NoMemory> {
        Ok(fails(alloc, Errno::INVAL))
    }

    fn write(&mut self, alloc: Global, body: &Body) -> Result<Outcome, NoMemory> {
        match body {
            Body::Frame { door, packet, .. } => {
                let plan = Plan::share(alloc, self.way(alloc)?)?;
                eval(alloc, &plan, door, packet)
            }
            Body::Msg(msg) => Ok(self.obey(alloc, msg.header.cmd, &msg.args.0)),
            _ => Ok(nothing(alloc)),
        }
    }

    fn farewell(&self) -> Farewell {
        Farewell::Plain
    }
}

/// A hub without hooks.
///
/// # Errors
/// `NoMemory` where memory ran out, and for nothing else.
pub fn blank_hub(alloc: Global) -> Result<HubNode, NoMemory>
    ensures { IfOk result (λ node. hub_state node ≡ blank_of Kind.Hub) }
{
    Ok(HubNode {
        hooks: HookList::new(alloc),
        persistent: false,
    })
}
