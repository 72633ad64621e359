// ng_socket(4): hands each packet to the reader.
ghost use Rattle.std.specs.Prelude.{◌≡◌, IfOk};
ghost use Rattle.ng_machine.specs.State.{blank_of};
ghost use Rattle.ng_plain_types.specs.edge.State.{socket_state};

use ng_base::{Errno, Kind, Name, NoMemory};
use ng_machine::{Body, Counts, Farewell, Outcome};
use ng_message::Msg;
use ng_plan::node::{HookList, Node};
use ng_plan::{Plan, Way, eval, fails, nothing};
use std::alloc::Global;
use std::marker::Model;
use std::sync::Arc;

/// The node that the commands come from: each packet that reaches it is handed to the reader. It stays without hooks and at
/// a shutdown, and has no messages. ng_socket(4).
///
/// A contract sees it as the names of its hooks.
#[derive(Drop)]
pub struct SocketNode {
    hooks: HookList,
}

impl Model for SocketNode {
    ghost use Rattle.std.specs.Prelude.{ℕ, List};

    ghost Value = { List (List ℕ) };

    ghost view = { λ n. n.hooks.names };
}

impl Node for SocketNode {
    ghost state = { λ n. socket_state n };

    fn kind(&self) -> Kind {
        Kind::Socket
    }

    fn may(&self, _hook: &Name) -> Result<(), Errno> {
        Ok(())
    }

    fn newhook(&mut self, _alloc: Global, hook: &Name) -> Result<(), NoMemory> {
        self.hooks.reserve()?;
        self.hooks.add(*hook);
        Ok(())
    }

    fn cut(&mut self, hook: &Name) {
        self.hooks.cut(hook);
    }

    fn lasting(&self) -> bool {
        true
    }

    fn plan(&self, alloc: Global) -> Result<Option<Arc<Plan>>, NoMemory> {
        Ok(Some(Plan::share(alloc, Way::Socket)?))
    }

    fn absorb(&mut self, _counts: &Counts) {}

    fn answer(&self, alloc: Global, _msg: &Msg) -> Result<Outcome, NoMemory> {
        Ok(fails(alloc, Errno::INVAL))
    }

    fn write(&mut self, alloc: Global, body: &Body) -> Result<Outcome, NoMemory> {
        match body {
            Body::Frame { door, packet, .. } => {
                let plan = Plan::share(alloc, Way::Socket)?;
                eval(alloc, &plan, door, packet)
            }
            Body::Msg(_) => Ok(fails(alloc, Errno::INVAL)),
            _ => Ok(nothing(alloc)),
        }
    }

    fn farewell(&self) -> Farewell {
        Farewell::Stay
    }
}

/// A socket without hooks.
///
/// # Errors
/// `NoMemory` where memory ran out, and for nothing else.
pub fn blank_socket(alloc: Global) -> Result<SocketNode, NoMemory>
    ensures { IfOk result (λ node. socket_state node ≡ blank_of Kind.Socket) }
{
    Ok(SocketNode {
        hooks: HookList::new(alloc),
    })
}
