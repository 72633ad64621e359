// Packets leave by a node: by the wire of its port, to the port's host, or to the reader of the socket.
ghost use Rattle.std.specs.Prelude.{◌≡◌, ℕ, ◌+◌, List, length, map, IsSome};
ghost use Rattle.ng_base.specs.declared.ids.Stamp.{Stamp as TheStamp};
ghost use Rattle.ng_machine.specs.Change.{change_all, leave};
ghost use Rattle.ng_machine.specs.declared.body.Exit.TheVariants.{Wire as ToWire, Host as ToHost, Reader as ToReader};
ghost use Rattle.ng_machine.specs.Effect.{exits};
ghost use Rattle.ng_machine.specs.Run.{RunState};
ghost use Rattle.ng_machine.specs.World.{port_of};
ghost use Rattle.ng_queue.specs.pending.Holds.{in_world};
ghost use Rattle.ng_queue.specs.tally.Tally.{HasNumbers};
ghost use Rattle.ng_core_state.specs.Stands.{Stands, port_of as port_kept};
ghost use Rattle.ng_core_state.specs.service.Leaving.{AllMayLeaveBy, MayLeaveBy, arrival_hook, name_or_empty};
ghost use Rattle.ng_core_state.specs.service.Ports.{change_port, with_one_up, with_packet};
ghost use Rattle.ng_core_state.specs.service.Room.{HasRoomToLeave, PortTakes, TakesPackets};

use crate::service::emptying::take_backwards;
use crate::{Port, State};
use ng_base::{Name, NodeId, Packet, Sequence, Stamp};
use ng_machine::{Body, Door, Exit, Item, Leaves, Told};
use ng_plan::node::Node;
use std::alloc::Global;

/// The place of the port that a node stands for.
pub fn port_of(at: NodeId) -> usize
    ensures { result ≡ port_of at }
{
    at.0.saturating_sub(2) as usize
}

// A packet leaves by the wire of a port.
fn push_leaving(port: &mut Port, stamp: Stamp, packet: Packet)
    requires { TakesPackets 1 port.old }
    ensures port { port_kept port.new ≡ with_packet stamp packet (port_kept port.old) }
    ensures room { (n : ℕ) → TakesPackets (n + 1) port.old → TakesPackets n port.new }
{
    port.leaving.push_reserved((stamp, packet));
}

// A packet goes to the host of a port.
fn count_up(port: &mut Port)
    requires { TakesPackets 1 port.old }
    ensures port { port_kept port.new ≡ with_one_up (port_kept port.old) }
    ensures room { (n : ℕ) → TakesPackets (n + 1) port.old → TakesPackets n port.new }
{
    port.up += 1;
}

// A packet leaves by the wire of the port of that place, where there is one.
fn send_out(ports: &mut Vec<Port>, at: usize, stamp: Stamp, packet: Packet)
    requires { PortTakes at 1 ports.old.items }
    ensures ports { map port_kept ports.new.items ≡ change_port at (with_packet stamp packet) (map port_kept ports.old.items) }
    ensures room { (n : ℕ) → PortTakes at (n + 1) ports.old.items → PortTakes at n ports.new.items }
{
    if at < ports.len() {
        push_leaving(&mut ports[at], stamp, packet);
    }
}

// A packet goes to the host of the port of that place, where there is one.
fn send_up(ports: &mut Vec<Port>, at: usize)
    requires { PortTakes at 1 ports.old.items }
    ensures ports { map port_kept ports.new.items ≡ change_port at with_one_up (map port_kept ports.old.items) }
    ensures room { (n : ℕ) → PortTakes at (n + 1) ports.old.items → PortTakes at n ports.new.items }
{
    if at < ports.len() {
        count_up(&mut ports[at]);
    }
}

// A packet leaves by the wire, or is lost where as many bytes left as may.
fn leave_by_wire<B: Node>(state: &mut State<B>, at: NodeId, stamp: Stamp, packet: Packet)
    requires room { HasRoomToLeave at 1 state.old }
    requires numbers { HasNumbers 1 state.old.pending.tally }
    ensures stands { (a : RunState) (hook : List ℕ) → Stands state.old a
        → Stands state.new (in_world a (leave a.world at stamp ToWire hook packet)) }
    ensures room { (n : ℕ) → HasRoomToLeave at (n + 1) state.old → HasRoomToLeave at n state.new }
    ensures graph { state.new.graph ≡ state.old.graph }
    ensures frames { state.new.pending.tally.frames ≡ state.old.pending.tally.frames }
    ensures queues { state.new.pending.queues ≡ state.old.pending.queues }
    ensures numbers { (k : ℕ) → HasNumbers (k + 1) state.old.pending.tally → HasNumbers k state.new.pending.tally }
{
    if state.pending.leave(&packet) {
        send_out(&mut state.ports, port_of(at), stamp, packet);
    }
}

// A packet goes to the host.
fn leave_to_host<B: Node>(state: &mut State<B>, at: NodeId)
    requires room { HasRoomToLeave at 1 state.old }
    ensures stands { (a : RunState) (hook packet : List ℕ) (stamp : TheStamp) → Stands state.old a
        → Stands state.new (in_world a (leave a.world at stamp ToHost hook packet)) }
    ensures room { (n : ℕ) → HasRoomToLeave at (n + 1) state.old → HasRoomToLeave at n state.new }
    ensures graph { state.new.graph ≡ state.old.graph }
    ensures pending { state.new.pending ≡ state.old.pending }
{
    send_up(&mut state.ports, port_of(at));
}

// A packet reaches the reader, who is told the hook that it came by, or is lost where as many bytes left as may.
fn leave_to_reader<B: Node>(state: &mut State<B>, _at: NodeId, hook: &Option<Name>, packet: Packet)
    requires named { IsSome hook.now }
    requires room { HasRoomToLeave _at 1 state.old }
    requires numbers { HasNumbers 1 state.old.pending.tally }
    ensures stands { (a : RunState) (stamp : TheStamp) → Stands state.old a
        → Stands state.new (in_world a (leave a.world _at stamp ToReader (name_or_empty hook.now) packet)) }
    ensures room { (n : ℕ) → HasRoomToLeave _at (n + 1) state.old → HasRoomToLeave _at n state.new }
    ensures graph { state.new.graph ≡ state.old.graph }
    ensures frames { state.new.pending.tally.frames ≡ state.old.pending.tally.frames }
    ensures queues { state.new.pending.queues ≡ state.old.pending.queues }
    ensures numbers { (k : ℕ) → HasNumbers (k + 1) state.old.pending.tally → HasNumbers k state.new.pending.tally }
{
    let Some(hook) = *hook else { unreachable!() };
    if state.pending.leave(&packet) {
        state.told.push_reserved(Told::Frame { hook, packet });
    }
}

// A packet leaves.
fn leave<B: Node>(
    state: &mut State<B>,
    at: NodeId,
    stamp: Stamp,
    exit: Exit,
    hook: &Option<Name>,
    packet: Packet,
)
    requires may { MayLeaveBy hook.now exit }
    requires room { HasRoomToLeave at 1 state.old }
    requires numbers { HasNumbers 1 state.old.pending.tally }
    ensures stands { (a : RunState) → Stands state.old a
        → Stands state.new (in_world a (leave a.world at stamp exit (name_or_empty hook.now) packet)) }
    ensures room { (n : ℕ) → HasRoomToLeave at (n + 1) state.old → HasRoomToLeave at n state.new }
    ensures graph { state.new.graph ≡ state.old.graph }
    ensures frames { state.new.pending.tally.frames ≡ state.old.pending.tally.frames }
    ensures queues { state.new.pending.queues ≡ state.old.pending.queues }
    ensures numbers { (k : ℕ) → HasNumbers (k + 1) state.old.pending.tally → HasNumbers k state.new.pending.tally }
{
    match exit {
        Exit::Wire => leave_by_wire(state, at, stamp, packet),
        Exit::Host => leave_to_host(state, at),
        Exit::Reader => leave_to_reader(state, at, hook, packet),
    }
}

// The hook that a packet came by.
fn arrival_hook(body: &Body) -> Option<Name>
    ensures { result ≡ arrival_hook body.now }
{
    match body {
        Body::Frame {
            door: Door::Hook(hook),
            ..
        } => Some(*hook),
        _ => None,
    }
}

// Packets leave, in order.
fn leave_all<B: Node>(
    alloc: Global,
    state: &mut State<B>,
    at: NodeId,
    stamp: Stamp,
    hook: &Option<Name>,
    leaves: &mut Leaves,
)
    requires may { AllMayLeaveBy hook.now leaves.old }
    requires room { HasRoomToLeave at (length leaves.old) state.old }
    requires numbers { HasNumbers (length leaves.old) state.old.pending.tally }
    ensures stands { (a : RunState) → Stands state.old a
        → Stands state.new (in_world a (change_all at stamp a.world (exits (name_or_empty hook.now) leaves.old))) }
    ensures graph { state.new.graph ≡ state.old.graph }
    ensures frames { state.new.pending.tally.frames ≡ state.old.pending.tally.frames }
    ensures queues { state.new.pending.queues ≡ state.old.pending.queues }
    ensures numbers { (k : ℕ) → HasNumbers (k + length leaves.old) state.old.pending.tally → HasNumbers k state.new.pending.tally }
{
    let mut backwards = take_backwards(alloc, leaves);
    while let Some((exit, packet)) = backwards.pop() {
        leave(state, at, stamp, exit, hook, packet);
    }
    *leaves = Sequence::from_vec(backwards);
}

/// Packets leave that an item made leave, in order, where there are any.
pub fn leave_any<B: Node>(alloc: Global, state: &mut State<B>, item: &Item, leaves: &mut Leaves)
    requires may { AllMayLeaveBy (arrival_hook item.now.body) leaves.old }
    requires room { HasRoomToLeave item.now.to (length leaves.old) state.old }
    requires numbers { HasNumbers (length leaves.old) state.old.pending.tally }
    ensures stands { (a : RunState) → Stands state.old a
        → Stands state.new (in_world a (change_all item.now.to item.now.stamp a.world (exits (name_or_empty (arrival_hook item.now.body)) leaves.old))) }
    ensures graph { state.new.graph ≡ state.old.graph }
    ensures frames { state.new.pending.tally.frames ≡ state.old.pending.tally.frames }
    ensures queues { state.new.pending.queues ≡ state.old.pending.queues }
    ensures numbers { (k : ℕ) → HasNumbers (k + length leaves.old) state.old.pending.tally → HasNumbers k state.new.pending.tally }
{
    if leaves.as_slice().is_empty() {
        return;
    }
    let hook = arrival_hook(&item.body);
    leave_all(alloc, state, item.to, item.stamp, &hook, leaves);
}
