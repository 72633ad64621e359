// What becomes of a packet by a plan.
ghost use Rattle.std.specs.Prelude.{◌≡◌, IfOk, OnOk};
ghost use Rattle.ng_machine.specs.Case.{eval, goes_ways};
ghost use Rattle.ng_machine.specs.Outcome.{nothing};

use crate::echo::send_back;
use crate::ether::pass;
use crate::form::Form;
use crate::hole::discard;
use crate::hub::fan_out;
use crate::lookup::{Hooks, nothing};
use crate::plan::Plan;
use crate::socket::hand_over;
use crate::split::part;
use crate::tee::copy_through;
use ng_base::{Kind, NoMemory, Packet};
use ng_machine::{Door, Outcome};
use std::alloc::Global;

/// What becomes of a packet at a tee or a split.
fn go_ways(
    kind: Kind,
    hooks: &Hooks,
    door: &Door,
    packet: &Packet,
    outcome: &mut Outcome,
) -> Result<(), NoMemory>
    requires { outcome.old ≡ nothing }
    ensures { OnOk result (outcome.new ≡ goes_ways kind hooks.now door.now packet.now) }
{
    match kind {
        Kind::Tee => copy_through(hooks, door, packet, outcome),
        Kind::Split => part(hooks, door, packet, outcome),
        _ => Ok(()),
    }
}

/// What becomes of a packet that comes by a door, as `eval` says it, put into an outcome that has nothing yet, in the
/// memory of its lists. A packet that is sent on as it came takes new memory only where such a list grows.
///
/// # Errors
/// `NoMemory` where memory ran out, and for nothing else; the outcome may have a part of it then.
pub fn eval_into(
    alloc: Global,
    plan: &Plan,
    door: &Door,
    packet: &Packet,
    outcome: &mut Outcome,
) -> Result<(), NoMemory>
    requires { outcome.old ≡ nothing }
    ensures { OnOk result (outcome.new ≡ eval plan.now door.now packet.now) }
{
    match plan.form() {
        Form::OfHole => {
            discard(door, packet, outcome);
            Ok(())
        }
        Form::OfEcho => send_back(door, packet, outcome),
        Form::OfHub(hooks) => fan_out(hooks.as_slice(), door, packet, outcome),
        Form::ByHooks { kind, hooks } => go_ways(*kind, hooks, door, packet, outcome),
        Form::OfVlan(vlan) => vlan.work(alloc, door, packet, outcome),
        Form::OfPatch(patch) => patch.work(alloc, door, packet, outcome),
        Form::OfBpf(bpf) => bpf.work(door, packet, outcome),
        Form::OfEther(has_lower) => pass(*has_lower, door, packet, outcome),
        Form::OfSocket => hand_over(door, packet, outcome),
        Form::OfBridge(bridge) => bridge.work(door, packet, outcome),
        Form::OfEtf(etf) => etf.work(door, packet, outcome),
        Form::OfMacset(macset) => macset.work(door, packet, outcome),
    }
}

/// What becomes of a packet that comes by a door: what is sent and what leaves, what is counted, what a bridge is to
/// learn, and the error of a packet that is refused. Packets that are sent on as they are share their bytes.
///
/// # Errors
/// `NoMemory` where memory ran out, and for nothing else.
pub fn eval(alloc: Global, plan: &Plan, door: &Door, packet: &Packet) -> Result<Outcome, NoMemory>
    ensures { IfOk result (λ outcome. outcome ≡ eval plan.now door.now packet.now) }
{
    let mut outcome = nothing(alloc);
    eval_into(alloc, plan, door, packet, &mut outcome)?;
    Ok(outcome)
}
