// ng_patch(4): changes packets by arithmetic at places.
ghost use Rattle.std.specs.Prelude.{◌≡◌, ◌≢◌, IfOk, OnOk, OnErr};
ghost use Rattle.ng_base.specs.Names.{has_name};
ghost use Rattle.ng_machine.specs.kinds.Patch.{patch_message};
ghost use Rattle.ng_machine.specs.Rules.{accepts_hook};
ghost use Rattle.ng_machine.specs.State.{blank_of};
ghost use Rattle.ng_filter_types.specs.patch.State.{patch_state};
ghost use Rattle.ng_plan.specs.Way.{IsWorkable};

use crate::patch::operations::Operations;
use ng_base::{Errno, Kind, Name, NoMemory};
use ng_machine::{Body, Counts, Farewell, Outcome};
use ng_message::{HAS_ANSWER, Msg, READ_ONLY};
use ng_plan::node::{HookList, Node};
use ng_plan::{Plan, Way, answers, eval, fails, in_hook, nothing, out_hook};
use std::alloc::Global;
use std::marker::Model;
use std::sync::Arc;

/// `NGM_PATCH_SETCONFIG`.
const SET_CONFIG: u32 = 1;

/// `NGM_PATCH_GETCONFIG`.
const GET_CONFIG: u32 = READ_ONLY + HAS_ANSWER + 2;

/// A node that does operations on each packet that comes by `in`, and sends it out of `out`, or back out of `in` where
/// `out` isn't there; a packet by `out` goes out of `in` as it came. Its messages are `setconfig` and `getconfig`.
/// ng_patch(4).
///
/// A contract sees its hooks and its operations.
#[derive(Drop)]
pub struct PatchNode {
    hooks: HookList,
    ops: Operations,
}

impl Model for PatchNode {
    ghost use Rattle.ng_filter_types.specs.patch.State.{Patch};

    ghost Value = { Patch };

    ghost view = { λ n. record { hooks = n.hooks.names; ops = n.ops } };
}

/// Whether a patch node has a hook of this name.
fn is_of_patch(hook: &Name) -> bool
    ensures { result ≡ accepts_hook Kind.Patch hook.now }
{
    in_hook() == *hook || out_hook() == *hook
}

impl PatchNode {
    /// What its plan is made of.
    fn way(&self, alloc: Global) -> Result<Way, NoMemory>
        ensures way { IfOk result (λ way. way ≡ Way.Patch self.now.hooks self.now.ops) }
        ensures workable { IfOk result IsWorkable }
    {
        Ok(Way::Patch {
            hooks: self.hooks.names(alloc)?,
            ops: self.ops.copy(alloc)?,
        })
    }

    /// Works on `setconfig`.
    fn set_config(&mut self, alloc: Global, args: &[u8]) -> Result<Outcome, NoMemory>
        ensures hooks { self.new.hooks ≡ self.old.hooks }
        ensures after { OnOk result (self.new.ops ≡ (patch_message self.old.ops 1 args.now).after) }
        ensures outcome { IfOk result (λ outcome. outcome ≡ (patch_message self.old.ops 1 args.now).outcome) }
        ensures err { OnErr result (self.new.ops ≡ self.old.ops) }
    {
        match Operations::read(alloc, args)? {
            Some(ops) => {
                self.ops = ops;
                Ok(nothing(alloc))
            }
            None => Ok(fails(alloc, Errno::INVAL)),
        }
    }

    /// What a message that sets nothing is answered.
    fn reply(&self, alloc: Global, number: u32, args: &[u8]) -> Result<Outcome, NoMemory>
        requires { number ≢ 1 }
        ensures { IfOk result (λ outcome. outcome ≡ (patch_message self.now.ops number args.now).outcome) }
    {
        if number != GET_CONFIG || !args.is_empty() {
            return Ok(fails(alloc, Errno::INVAL));
        }
        Ok(answers(alloc, self.ops.bytes(alloc)?))
    }

    /// Works on a message.
    fn obey(&mut self, alloc: Global, number: u32, args: &[u8]) -> Result<Outcome, NoMemory>
        ensures hooks { self.new.hooks ≡ self.old.hooks }
        ensures after { OnOk result (self.new.ops ≡ (patch_message self.old.ops number args.now).after) }
        ensures outcome { IfOk result (λ outcome. outcome ≡ (patch_message self.old.ops number args.now).outcome) }
        ensures err { OnErr result (self.new.ops ≡ self.old.ops) }
    {
        if number == SET_CONFIG {
            self.set_config(alloc, args)
        } else {
            self.reply(alloc, number, args)
        }
    }
}

impl Node for PatchNode {
    ghost state = { λ n. patch_state n };

    fn kind(&self) -> Kind {
        Kind::Patch
    }

    fn may(&self, hook: &Name) -> Result<(), Errno> {
        if is_of_patch(hook) {
            Ok(())
        } else {
            Err(Errno::INVAL)
        }
    }

    fn newhook(&mut self, _alloc: Global, hook: &Name) -> Result<(), NoMemory> {
        self.hooks.reserve()?;
        self.hooks.add(*hook);
        Ok(())
    }

    fn cut(&mut self, hook: &Name) {
        self.hooks.cut(hook);
    }

    fn lasting(&self) -> bool {
        false
    }

    fn plan(&self, alloc: Global) -> Result<Option<Arc<Plan>>, NoMemory> {
        Ok(Some(Plan::share(alloc, self.way(alloc)?)?))
    }

    fn absorb(&mut self, _counts: &Counts) {}

    fn answer(&self, alloc: Global, msg: &Msg) -> Result<Outcome, NoMemory> {
        self.reply(alloc, msg.header.cmd, &msg.args.0)
    }

    fn write(&mut self, alloc: Global, body: &Body) -> Result<Outcome, NoMemory> {
        match body {
            Body::Frame { door, packet, .. } => {
                let plan = Plan::share(alloc, self.way(alloc)?)?;
                eval(alloc, &plan, door, packet)
            }
            Body::Msg(msg) => self.obey(alloc, msg.header.cmd, &msg.args.0),
            _ => Ok(nothing(alloc)),
        }
    }

    fn farewell(&self) -> Farewell {
        Farewell::Plain
    }
}

/// A patch node without hooks and operations.
///
/// # Errors
/// `NoMemory` where memory ran out, and for nothing else.
pub fn blank_patch(alloc: Global) -> Result<PatchNode, NoMemory>
    ensures { IfOk result (λ node. patch_state node ≡ blank_of Kind.Patch) }
{
    Ok(PatchNode {
        hooks: HookList::new(alloc),
        ops: Operations::new(alloc),
    })
}
