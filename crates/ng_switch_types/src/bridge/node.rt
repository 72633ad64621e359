// A node of the type bridge.
ghost use Rattle.std.specs.Prelude.{◌≡◌, map, IfOk};
ghost use Rattle.std.specs.Arc.{arc_value};
ghost use Rattle.ng_machine.specs.kinds.Bridge.{bridges, host_way, link_way};
ghost use Rattle.ng_machine.specs.declared.plan.Plan.TheVariants.{Bridge as bridge_way};
ghost use Rattle.ng_machine.specs.State.{blank_of};
ghost use Rattle.ng_switch_types.specs.bridge.Node.{bridge_state};

use crate::bridge::bridge::Bridge;
use crate::bridge::messages::{obey, reply};
use ng_base::{Errno, Kind, Name, NoMemory, Packet};
use ng_machine::{Body, Counts, Door, Farewell, Outcome};
use ng_message::Msg;
use ng_plan::node::{HookList, Node};
use ng_plan::{Plan, eval, link_number, nothing};
use std::alloc::Global;
use std::marker::Model;
use std::sync::Arc;

/// The most links of a bridge.
const MAX_LINKS: u8 = 32;

/// A node that sends a frame toward the host that it is for. ng_bridge(4).
///
/// A contract sees its hooks, and what a bridge keeps: its configuration, links and hosts.
#[derive(Drop)]
pub struct BridgeNode {
    hooks: HookList,
    bridge: Bridge,
}

impl Model for BridgeNode {
    ghost use Rattle.ng_machine.specs.Sound.{IsSound};
    ghost use Rattle.ng_machine.specs.State.{BridgeState};
    ghost use Rattle.ng_switch_types.specs.bridge.Node.{BridgeParts};

    ghost Value = { BridgeParts };

    ghost view = { λ n. record { hooks = n.hooks.names; bridge = n.bridge } };

    ghost invariant = { λ n. IsSound (record { hooks = n.hooks.names; kept = BridgeState n.bridge }) };
}

/// The plan of a bridge.
fn plan_of(alloc: Global, bridge: &Bridge) -> Result<Arc<Plan>, NoMemory>
    ensures { IfOk result (λ plan. arc_value plan ≡ bridge_way bridge.now.config (map link_way bridge.now.links) (map host_way bridge.now.hosts)) }
{
    Plan::of_bridge(alloc, bridge.plan(alloc)?)
}

/// What becomes of a frame.
fn outcome_of_frame(
    alloc: Global,
    bridge: &Bridge,
    door: &Door,
    packet: &Packet,
) -> Result<Outcome, NoMemory>
    ensures { IfOk result (λ outcome. outcome ≡ bridges bridge.now.config (map link_way bridge.now.links) (map host_way bridge.now.hosts) door.now packet.now) }
{
    let plan = plan_of(alloc, bridge)?;
    eval(alloc, &plan, door, packet)
}

impl Node for BridgeNode {
    ghost state = { λ n. bridge_state n };

    fn kind(&self) -> Kind {
        Kind::Bridge
    }

    fn may(&self, hook: &Name) -> Result<(), Errno> {
        if link_number(hook) < MAX_LINKS {
            Ok(())
        } else {
            Err(Errno::INVAL)
        }
    }

    fn newhook(&mut self, _alloc: Global, hook: &Name) -> Result<(), NoMemory> {
        self.hooks.reserve()?;
        self.bridge.add_link(hook)?;
        self.hooks.add(*hook);
        Ok(())
    }

    fn cut(&mut self, hook: &Name) {
        self.hooks.cut(hook);
        self.bridge.cut_link(hook);
    }

    fn lasting(&self) -> bool {
        self.bridge.is_persistent()
    }

    fn plan(&self, alloc: Global) -> Result<Option<Arc<Plan>>, NoMemory> {
        Ok(Some(plan_of(alloc, &self.bridge)?))
    }

    fn absorb(&mut self, counts: &Counts) {
        self.bridge.absorb(counts.as_slice());
    }

    fn answer(&self, alloc: Global, msg: &Msg) -> Result<Outcome, NoMemory> {
        reply(alloc, &self.bridge, msg.header.cmd, &msg.args.0)
    }

    fn write(&mut self, alloc: Global, body: &Body) -> Result<Outcome, NoMemory> {
        match body {
            Body::Frame { door, packet, .. } => {
                let outcome = outcome_of_frame(alloc, &self.bridge, door, packet)?;
                self.bridge.absorb(outcome.counts.as_slice());
                Ok(outcome)
            }
            Body::Msg(msg) => {
                let outcome = reply(alloc, &self.bridge, msg.header.cmd, &msg.args.0)?;
                obey(&mut self.bridge, msg.header.cmd, &msg.args.0);
                Ok(outcome)
            }
            Body::Tick(seconds) => {
                self.bridge.tick(*seconds);
                Ok(nothing(alloc))
            }
            Body::Learn { hook, addr, .. } => {
                self.bridge.learn(hook, addr)?;
                Ok(nothing(alloc))
            }
            _ => Ok(nothing(alloc)),
        }
    }

    fn farewell(&self) -> Farewell {
        Farewell::Plain
    }
}

/// A node of the type without hooks.
///
/// # Errors
/// `NoMemory` where memory ran out, and for nothing else.
pub fn blank_bridge(alloc: Global) -> Result<BridgeNode, NoMemory>
    ensures { IfOk result (λ node. bridge_state node ≡ blank_of Kind.Bridge) }
{
    Ok(BridgeNode {
        hooks: HookList::new(alloc),
        bridge: Bridge::new(alloc),
    })
}
