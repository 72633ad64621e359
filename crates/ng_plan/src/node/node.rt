// What a node is to the layers above.
ghost use Rattle.std.specs.Prelude.{◌≡◌, false, true, IfOk, IsOk, OnOk, OnErr};
ghost use Rattle.std.specs.Arc.{arc_value};
ghost use Rattle.std.specs.Option.{option_map};
ghost use Rattle.ng_base.specs.Names.{has_name};
ghost use Rattle.ng_machine.specs.Case.{absorb, outcome_of, reply_to};
ghost use Rattle.ng_machine.specs.Rules.{farewell_of, is_lasting, may_of};
ghost use Rattle.ng_machine.specs.State.{State, kind_of, add_hook, cut_hook, way_of};
ghost use Rattle.ng_plan.specs.node.Write.{IsAsked, IsWritable, state_after};

use crate::Plan;
use ng_base::{Errno, Kind, Name, NoMemory};
use ng_machine::{Body, Counts, Farewell, Outcome};
use ng_message::Msg;
use std::alloc::Global;
use std::sync::Arc;

/// A node of some type: netgraph(3)'s methods of a type, over a state that contracts see as data.
pub trait Node: Drop + Send {
    /// The state: the hooks and what the kind keeps.
    ghost state: { Self → State };

    /// The type of the node.
    fn kind(&self) -> Kind
        ensures { result ≡ kind_of (state self.now) };

    /// Whether the type takes a hook of this name.
    ///
    /// # Errors
    /// `EINVAL` where it doesn't.
    fn may(&self, hook: &Name) -> Result<(), Errno>
        ensures { result ≡ may_of (kind_of (state self.now)) hook.now };

    /// Adds a hook at the end. The type takes the name, and the node has no such hook. Where the hook is cut
    /// again right after, the state is as before.
    ///
    /// # Errors
    /// `NoMemory` where memory ran out, and for nothing else; the state is then as before.
    fn newhook(&mut self, alloc: Global, hook: &Name) -> Result<(), NoMemory>
        requires allowed { IsOk (may_of (kind_of (state self.old)) hook.now) }
        requires fresh { has_name (state self.old).hooks hook.now ≡ false }
        ensures ok { OnOk result (state self.new ≡ add_hook (state self.old) hook.now) }
        ensures undone { OnOk result (cut_hook (state self.new) hook.now ≡ state self.old) }
        ensures err { OnErr result (state self.new ≡ state self.old) };

    /// Takes a hook of the node away.
    fn cut(&mut self, hook: &Name)
        requires { has_name (state self.old).hooks hook.now ≡ true }
        ensures { state self.new ≡ cut_hook (state self.old) hook.now };

    /// Whether the node stays without hooks.
    fn lasting(&self) -> bool
        ensures { result ≡ is_lasting (state self.now).kept };

    /// What the type's rule for packets reads of the state, without counters: `None` of a one2many alone,
    /// whose packets change the node. It stands until a hook is made or cut or the type writes.
    ///
    /// # Errors
    /// `NoMemory` where memory ran out, and for nothing else.
    fn plan(&self, alloc: Global) -> Result<Option<Arc<Plan>>, NoMemory>
        ensures { IfOk result (λ plan. option_map arc_value plan ≡ way_of (state self.now)) };

    /// Adds what was counted to the counters. A counter that the node doesn't have is passed over, and one that
    /// would rise above 2^64 - 1 stops there.
    fn absorb(&mut self, counts: &Counts)
        ensures { state self.new ≡ record (state self.old) { kept = absorb (state self.old).kept counts.now } };

    /// What a message of the type's cookie that reads is answered.
    ///
    /// # Errors
    /// `NoMemory` where memory ran out, and for nothing else.
    fn answer(&self, alloc: Global, msg: &Msg) -> Result<Outcome, NoMemory>
        requires { IsAsked (state self.now) msg.now }
        ensures { IfOk result (λ outcome. outcome ≡ (reply_to (state self.now) msg.now.header.cmd msg.now.args).outcome) };

    /// Works on a packet by a hook of the node or by the wire, on a message of the type's cookie that writes, and of a
    /// bridge on time and on what it is to learn.
    ///
    /// # Errors
    /// `NoMemory` where memory ran out, and for nothing else; the state is then as before.
    fn write(&mut self, alloc: Global, body: &Body) -> Result<Outcome, NoMemory>
        requires { IsWritable (state self.old) body.now }
        ensures after { OnOk result (state self.new ≡ state_after (state self.old) body.now) }
        ensures outcome { IfOk result (λ outcome. outcome ≡ outcome_of (state self.old) body.now) }
        ensures err { OnErr result (state self.new ≡ state self.old) };

    /// What the node does at a shutdown.
    fn farewell(&self) -> Farewell
        ensures { result ≡ farewell_of (kind_of (state self.now)) };
}

/// A call on a box goes to the node inside.
impl Node for Box<dyn Node + Send> {
    ghost state = { λ b. (Node-box b).state b.value };

    fn kind(&self) -> Kind {
        (**self).kind()
    }

    fn may(&self, hook: &Name) -> Result<(), Errno> {
        (**self).may(hook)
    }

    fn newhook(&mut self, alloc: Global, hook: &Name) -> Result<(), NoMemory> {
        (**self).newhook(alloc, hook)
    }

    fn cut(&mut self, hook: &Name) {
        (**self).cut(hook);
    }

    fn lasting(&self) -> bool {
        (**self).lasting()
    }

    fn plan(&self, alloc: Global) -> Result<Option<Arc<Plan>>, NoMemory> {
        (**self).plan(alloc)
    }

    fn absorb(&mut self, counts: &Counts) {
        (**self).absorb(counts);
    }

    fn answer(&self, alloc: Global, msg: &Msg) -> Result<Outcome, NoMemory> {
        (**self).answer(alloc, msg)
    }

    fn write(&mut self, alloc: Global, body: &Body) -> Result<Outcome, NoMemory> {
        (**self).write(alloc, body)
    }

    fn farewell(&self) -> Farewell {
        (**self).farewell()
    }
}
