// A node that steps are tried at, whose type is any.
ghost use Rattle.std.specs.Prelude.{◌≡◌, [], IfOk};
ghost use Rattle.ng_base.specs.Kind.{cookie_of};
ghost use Rattle.ng_machine.specs.State.{kind_of};

use crate::types::fields::laid_out;
use crate::types::steps::{Arrival, Case, Step, Way, has_answer, is_fate};
use ng_base::{Bytes, Errno, Kind, LinkId, Name, Names, NodeId, Packet};
use ng_machine::{Body, Counts, Door, Outcome};
use ng_message::{Header, Msg, VERSION, is_read_only};
use ng_plan::node::Node;
use ng_plan::{Plan, eval};
use std::alloc::Global;
use std::marker::Model;
use std::process::Abort;
use std::sync::Arc;
use std::test::Fail;

/// The cookie of the first type. The others follow in the order of the types.
const FIRST_COOKIE: u32 = 0x4e47_0001;

/// A node, the names of its hooks, and the cookie of its messages.
#[derive(Drop)]
pub(super) struct Bench<N: Node> {
    node: N,
    hooks: Names,
    cookie: u32,
}

impl<N: Node> Model for Bench<N> {
    ghost use Rattle.std.specs.Prelude.{◌≡◌};
    ghost use Rattle.ng_base.specs.Kind.{cookie_of};
    ghost use Rattle.ng_machine.specs.State.{State, kind_of};

    ghost Value = { State };

    ghost view = { λ b. N.state b.node };

    ghost invariant = { λ b. (N.state b.node).hooks ≡ b.hooks };
}

// A message that node 1 sends.
fn message(alloc: Global, cookie: u32, number: u32, args: &[u8]) -> Result<Msg, Fail>
    ensures cookie { IfOk result (λ msg. msg.header.typecookie ≡ cookie) }
    ensures number { IfOk result (λ msg. msg.header.cmd ≡ number) }
{
    Ok(Msg {
        from: NodeId(1),
        header: Header {
            version: VERSION,
            spare: 0,
            spare2: 0,
            arglen: 0,
            cmd: number,
            flags: 0,
            token: 1,
            typecookie: cookie,
            cmdstr: [0; 32],
        },
        args: Bytes(Vec::from_slice(alloc, args)?),
    })
}

// What a packet by a hook adds to the counters, by a plan.
fn counts(alloc: Global, plan: &Plan, arrival: &Arrival) -> Result<Counts, Fail> {
    let door = Door::Hook(Name::read(arrival.0)?);
    let packet = Packet::new(alloc, &laid_out(alloc, arrival.1)?)?;
    Ok(eval(alloc, plan, &door, &packet)?.counts)
}

impl<N: Node> Bench<N> {
    /// A node without hooks, whose type has messages of this cookie.
    pub(super) fn new(alloc: Global, cookie: u32, node: N) -> Result<Self, Fail>
        requires { (N.state node).hooks ≡ [] }
    {
        Ok(Bench {
            node,
            hooks: Names::new(alloc),
            cookie,
        })
    }

    fn add_hook(&mut self, alloc: Global, name: &[u8]) -> Result<(), Fail> {
        let name = Name::read(name)?;
        if self.hooks.has(&name) {
            return Err(Errno::EXIST)?;
        }
        self.node.may(&name)?;
        let mut hooks = self.hooks.again(alloc)?;
        hooks.push(name)?;
        self.node.newhook(alloc, &name)?;
        self.hooks = hooks;
        Ok(())
    }

    fn cut_hook(&mut self, name: &[u8]) -> Result<(), Fail> {
        let name = Name::read(name)?;
        if !self.hooks.has(&name) {
            return Err(Errno::NOENT)?;
        }
        self.node.cut(&name);
        self.hooks.remove(&name);
        Ok(())
    }

    // What comes of a message of the type's cookie.
    pub(super) fn tell(
        &mut self,
        alloc: Global,
        number: u32,
        args: &[u8],
    ) -> Result<Outcome, Fail> {
        if self.cookie != FIRST_COOKIE + u32::from(self.node.kind().number()) {
            return Err(Errno::INVAL)?;
        }
        let msg = message(alloc, self.cookie, number, args)?;
        if is_read_only(number) {
            return Ok(self.node.answer(alloc, &msg)?);
        }
        Ok(self.node.write(alloc, &Body::Msg(msg))?)
    }

    // What comes of a packet by a hook. A bridge learns what the packet tells it.
    fn send(&mut self, alloc: Global, hook: &[u8], bytes: &[u8]) -> Result<Outcome, Fail> {
        let hook = Name::read(hook)?;
        if !self.hooks.has(&hook) {
            return Err(Errno::NOENT)?;
        }
        let frame = Body::Frame {
            door: Door::Hook(hook),
            link: Some(LinkId(1)),
            packet: Packet::new(alloc, bytes)?,
        };
        let outcome = self.node.write(alloc, &frame)?;
        if let Some(addr) = outcome.learn {
            self.learn(alloc, hook, addr)?;
        }
        Ok(outcome)
    }

    // A bridge learns that a host is behind a link.
    fn learn(&mut self, alloc: Global, hook: Name, addr: [u8; 6]) -> Result<(), Fail> {
        if !self.hooks.has(&hook) {
            return Err(Errno::NOENT)?;
        }
        let Kind::Bridge = self.node.kind() else {
            return Err(Errno::INVAL)?;
        };
        let news = Body::Learn {
            hook,
            link: LinkId(1),
            addr,
        };
        self.node.write(alloc, &news)?;
        Ok(())
    }

    fn wait(&mut self, alloc: Global, seconds: u32) -> Result<(), Fail> {
        let Kind::Bridge = self.node.kind() else {
            return Err(Errno::INVAL)?;
        };
        self.node.write(alloc, &Body::Tick(seconds))?;
        Ok(())
    }

    // What comes of a packet by the wire.
    fn send_by_wire(&mut self, alloc: Global, bytes: &[u8]) -> Result<Outcome, Fail> {
        let Kind::Ether = self.node.kind() else {
            return Err(Errno::INVAL)?;
        };
        let frame = Body::Frame {
            door: Door::Wire,
            link: None,
            packet: Packet::new(alloc, bytes)?,
        };
        Ok(self.node.write(alloc, &frame)?)
    }

    // What the node's plan makes of a packet by a hook. The node counts it.
    fn plan(&mut self, alloc: Global, hook: &[u8], bytes: &[u8]) -> Result<Outcome, Fail> {
        let door = Door::Hook(Name::read(hook)?);
        let packet = Packet::new(alloc, bytes)?;
        let Some(plan) = self.node.plan(alloc)? else {
            return Err(Errno::NXIO)?;
        };
        let outcome = eval(alloc, &plan, &door, &packet)?;
        self.node.absorb(&outcome.counts);
        Ok(outcome)
    }

    // Two packets are worked on beside each other by one plan, and counted in the other order.
    fn pass_beside(&mut self, alloc: Global, one: &Arrival, two: &Arrival) -> Result<(), Fail> {
        let Some(plan) = self.node.plan(alloc)? else {
            return Err(Errno::NXIO)?;
        };
        let again = Arc::try_clone(&plan)?;
        let first = counts(alloc, &plan, one)?;
        let second = counts(alloc, &again, two)?;
        self.node.absorb(&second);
        self.node.absorb(&first);
        Ok(())
    }

    // What comes of a packet.
    fn pass(&mut self, alloc: Global, way: &Way, bytes: &[u8]) -> Result<Outcome, Fail> {
        match way {
            Way::Hook(hook) => self.send(alloc, hook, bytes),
            Way::Plan(hook) => self.plan(alloc, hook, bytes),
            Way::Wire => self.send_by_wire(alloc, bytes),
        }
    }

    // Takes a step: whether it comes to what it has to.
    fn take(&mut self, alloc: Global, step: &Step) -> Result<bool, Fail> {
        match step {
            Step::Hook(name) => {
                self.add_hook(alloc, name)?;
                Ok(true)
            }
            Step::NoHook(name) => Ok(self.node.may(&Name::read(name)?) == Err(Errno::INVAL)),
            Step::Cut(name) => {
                self.cut_hook(name)?;
                Ok(true)
            }
            Step::Packet(way, fields, fate) => {
                let bytes = laid_out(alloc, fields)?;
                is_fate(alloc, &self.pass(alloc, way, &bytes)?, &bytes, fate)
            }
            Step::Beside(one, two) => {
                self.pass_beside(alloc, one, two)?;
                Ok(true)
            }
            Step::Wait(seconds) => {
                self.wait(alloc, *seconds)?;
                Ok(true)
            }
            Step::Tell(number, fields, errno) => {
                let args = laid_out(alloc, fields)?;
                Ok(self.tell(alloc, *number, &args)?.errno == *errno)
            }
            Step::Ask(number, fields, answer) => {
                let args = laid_out(alloc, fields)?;
                let outcome = self.tell(alloc, *number, &args)?;
                Ok(has_answer(&outcome, &laid_out(alloc, answer)?))
            }
            Step::Lasts(is) => Ok(self.node.lasting() == *is),
            Step::HasPlan(is) => Ok(self.node.plan(alloc)?.is_some() == *is),
        }
    }

    /// Takes steps: how many of them, in front of the first that comes to something else.
    pub(super) fn walk(&mut self, alloc: Global, steps: &[Step]) -> Result<usize, Fail> {
        let mut taken = 0usize;
        for step in steps {
            if !self.take(alloc, step)? {
                return Ok(taken);
            }
            taken = taken.saturating_add(1);
        }
        Ok(taken)
    }
}

/// Tries a case at a blank node whose type has messages of this cookie.
pub(super) fn try_case<N: Node>(
    rt: &impl Abort,
    alloc: Global,
    cookie: u32,
    node: N,
    case: &Case,
) -> Result<(), Fail>
    requires { (N.state node).hooks ≡ [] }
{
    let mut bench = Bench::new(alloc, cookie, node)?;
    assert_eq!(rt;
        bench.walk(alloc, case.steps)?,
        case.steps.len(),
        "{}",
        case.shows
    );
    Ok(())
}
