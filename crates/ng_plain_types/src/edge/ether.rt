// ng_ether(4): joins the wire and the host of a port to the graph.
ghost use Rattle.std.specs.Prelude.{◌≡◌, ◌∷◌, [], IfOk};
ghost use Rattle.ng_base.specs.Names.{has_name};
ghost use Rattle.ng_machine.specs.Names.{lower, upper};
ghost use Rattle.ng_machine.specs.State.{blank_of};
ghost use Rattle.ng_plain_types.specs.edge.State.{ether_state};

use crate::edge::settings::Settings;
use ng_base::{Errno, Kind, Name, NoMemory};
use ng_machine::{Body, Counts, Farewell, Outcome};
use ng_message::Msg;
use ng_plan::node::{HookList, Node};
use ng_plan::{Plan, Way, eval, lower, nothing, upper};
use std::alloc::Global;
use std::marker::Model;
use std::sync::Arc;

/// The node of a port. A packet from the wire goes out of the hook `lower` where that is there, and to the host else;
/// one that comes by `lower` goes to the wire, and one by `upper` to the host. It stays without hooks and at a shutdown.
/// Its messages are `setpromisc`, `getpromisc`, `setautosrc` and `getautosrc`. ng_ether(4).
///
/// A contract sees its hooks, and the two numbers that its messages keep.
#[derive(Drop)]
pub struct EtherNode {
    hooks: HookList,
    settings: Settings,
}

impl Model for EtherNode {
    ghost use Rattle.ng_plain_types.specs.edge.State.{Port};

    ghost Value = { Port };

    ghost view = { λ n. record { hooks = n.hooks.names; settings = n.settings } };
}

/// Whether an ether has a hook of this name.
fn is_of_ether(hook: &Name) -> bool
    ensures { result ≡ has_name (lower ∷ upper ∷ []) hook.now }
{
    lower() == *hook || upper() == *hook
}

impl EtherNode {
    /// What its plan is made of.
    fn way(&self) -> Way
        ensures { result ≡ Way.Ether (has_name self.now.hooks lower) }
    {
        Way::Ether {
            lower: self.hooks.has(&lower()),
        }
    }
}

impl Node for EtherNode {
    ghost state = { λ n. ether_state n };

    fn kind(&self) -> Kind {
        Kind::Ether
    }

    fn may(&self, hook: &Name) -> Result<(), Errno> {
        if is_of_ether(hook) {
            Ok(())
        } else {
            Err(Errno::INVAL)
        }
    }

    fn newhook(&mut self, _alloc: Global, hook: &Name) -> Result<(), NoMemory> {
        self.hooks.reserve()?;
        self.hooks.add(*hook);
        Ok(())
    }

    fn cut(&mut self, hook: &Name) {
        self.hooks.cut(hook);
    }

    fn lasting(&self) -> bool {
        true
    }

    fn plan(&self, alloc: Global) -> Result<Option<Arc<Plan>>, NoMemory> {
        Ok(Some(Plan::share(alloc, self.way())?))
    }

    fn absorb(&mut self, _counts: &Counts) {}

    fn answer(&self, alloc: Global, msg: &Msg) -> Result<Outcome, NoMemory> {
        self.settings.reply(alloc, msg.header.cmd, &msg.args.0)
    }

    fn write(&mut self, alloc: Global, body: &Body) -> Result<Outcome, NoMemory> {
        match body {
            Body::Frame { door, packet, .. } => {
                let plan = Plan::share(alloc, self.way())?;
                eval(alloc, &plan, door, packet)
            }
            Body::Msg(msg) => {
                let outcome = self.settings.reply(alloc, msg.header.cmd, &msg.args.0)?;
                self.settings.obey(msg.header.cmd, &msg.args.0);
                Ok(outcome)
            }
            _ => Ok(nothing(alloc)),
        }
    }

    fn farewell(&self) -> Farewell {
        Farewell::Stay
    }
}

/// An ether without hooks, whose numbers are 0.
///
/// # Errors
/// `NoMemory` where memory ran out, and for nothing else.
pub fn blank_ether(alloc: Global) -> Result<EtherNode, NoMemory>
    ensures { IfOk result (λ node. ether_state node ≡ blank_of Kind.Ether) }
{
    Ok(EtherNode {
        hooks: HookList::new(alloc),
        settings: Settings::new(),
    })
}
