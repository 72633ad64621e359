// An input is fed.
ghost use Rattle.std.specs.Prelude.{◌≡◌, ℕ, ◌+◌, ◌<◌, ◌≤◌, ◌^◌, length, vec_len, vec_capacity, Some, OnOk, OnErr};
ghost use Rattle.ng_machine.specs.declared.input.Input.TheVariants.{Packet as FedPacket, Tick as FedTick};
ghost use Rattle.ng_machine.specs.Feed.{RunInput, begin_command, feed_command, feed_next};
ghost use Rattle.ng_machine.specs.KnownRun.{FitsInput};
ghost use Rattle.ng_machine.specs.LowRun.{IsLow, most_ports};
ghost use Rattle.ng_machine.specs.Run.{RunState};
ghost use Rattle.ng_queue.specs.pending.Holds.{in_world};
ghost use Rattle.ng_table.specs.reading.Reading.{reading};
ghost use Rattle.ng_queue.specs.tally.Tally.{HasNumbers};
ghost use Rattle.ng_core_state.specs.Stands.{IsStanding, Stands};
ghost use Rattle.ng_core.specs.intake.Decided.{does};
ghost use Rattle.ng_core.specs.intake.Intake.{HasRoomFor};

use crate::intake::asked::asked_by;
use crate::intake::asking::decide;
use crate::intake::decided::Decided;
use crate::intake::ticking::{tick_all, widen_bridges};
use ng_base::{NoMemory, NodeId, Packet, Stamp};
use ng_core_state::State;
use ng_core_state::step::{accept_at, widen, widen_told};
use ng_machine::{Command, Input, Told};
use ng_plan::node::Node;
use std::alloc::Global;

// No node has this number or a greater one.
const MAX_NODES: usize = 16_777_216;

// Room for a command's line, and for what the command does.
fn make_room<B: Node>(state: &mut State<B>, decided: &Decided) -> Result<(), NoMemory>
    ensures stands { (a : RunState) → Stands state.old a → Stands state.new a }
    ensures told { OnOk result (vec_len state.new.told + 2 ≤ vec_capacity state.new.told) }
    ensures room { OnOk result (HasRoomFor state.new decided.now) }
    ensures graph { state.new.graph ≡ state.old.graph }
    ensures tally { state.new.pending.tally ≡ state.old.pending.tally }
{
    widen_told(state, 2)?;
    match decided {
        Decided::Accept { to, .. } => widen(state, *to),
        Decided::Refuse { .. } | Decided::Help | Decided::Nothing => Ok(()),
    }
}

// A command is fed: its number is kept, and its line is told. There is room for two entries.
fn begin<B: Node>(state: &mut State<B>, number: u32)
    requires room { vec_len state.old.told + 2 ≤ vec_capacity state.old.told }
    requires fed { state.old.pending.tally.fed < 2 ^ 63 }
    ensures stands { (a : RunState) → Stands state.old a
        → Stands state.new (in_world a (begin_command (record a.world { fed = a.world.fed + 1 }) number)) }
    ensures room { vec_len state.new.told < vec_capacity state.new.told }
    ensures queues { state.new.pending.queues ≡ state.old.pending.queues }
    ensures numbers { (k : ℕ) → HasNumbers k state.old.pending.tally → HasNumbers k state.new.pending.tally }
{
    state.pending.feed();
    state.pending.begin_command(number);
    state.told.push_reserved(Told::Line { command: number });
}

// A command does what it does. There is room for an entry and for the item.
fn carry_out<B: Node>(state: &mut State<B>, command: u32, decided: Decided)
    requires standing { IsStanding state.old }
    requires told { vec_len state.old.told < vec_capacity state.old.told }
    requires room { HasRoomFor state.old decided }
    requires numbers { HasNumbers 1 state.old.pending.tally }
    ensures { (a : RunState) → Stands state.old a → Stands state.new (in_world a (does decided a.world command)) }
{
    match decided {
        Decided::Refuse { errno, why } => state.tell(Told::Refused {
            command,
            errno,
            why,
        }),
        Decided::Help => state.tell(Told::Help { command }),
        Decided::Nothing => {}
        Decided::Accept { to, body, tag } => {
            let clock = state.pending.tally.clock;
            accept_at(state, to, body, tag, clock);
        }
    }
}

// A command, or a late one, is fed.
fn feed_command<B: Node>(
    alloc: Global,
    state: &mut State<B>,
    command: &Command,
) -> Result<(), NoMemory>
    requires standing { (a : RunState) × Stands state.old a × IsLow a.world }
    requires fed { state.old.pending.tally.fed < 2 ^ 63 }
    ensures fed { OnOk result ((a : RunState) (given : RunInput) → given.reading ≡ reading → Stands state.old a
        → Stands state.new (in_world a (feed_command given (record a.world { fed = a.world.fed + 1 }) command.now))) }
    ensures err { OnErr result ((a : RunState) → Stands state.old a → Stands state.new a) }
{
    let asked = asked_by(alloc, &command.what)?;
    let decided = decide(alloc, &state.graph, command.number, asked)?;
    make_room(state, &decided)?;
    begin(state, command.number);
    carry_out(state, command.number, decided);
    Ok(())
}

// A packet is fed by a port; its bytes are shared.
fn feed_packet<B: Node>(
    state: &mut State<B>,
    port: u32,
    stamp: Stamp,
    packet: &Packet,
) -> Result<(), NoMemory>
    requires standing { (a : RunState) × Stands state.old a × IsLow a.world }
    requires fed { state.old.pending.tally.fed < 2 ^ 63 }
    requires port { port < length state.old.ports.items }
    requires few { length state.old.ports.items ≤ most_ports }
    ensures fed { OnOk result ((a : RunState) (given : RunInput) → Stands state.old a
        → Stands state.new (in_world a (feed_next given a.world (Some (FedPacket port stamp packet.now))))) }
    ensures err { OnErr result ((a : RunState) → Stands state.old a → Stands state.new a) }
{
    let packet = packet.again()?;
    widen(state, NodeId(port + 2))?;
    state.feed_packet(port, stamp, packet);
    Ok(())
}

// So many seconds went by.
fn feed_tick<B: Node>(state: &mut State<B>, seconds: u32) -> Result<(), NoMemory>
    requires standing { (a : RunState) × Stands state.old a × IsLow a.world }
    requires fed { state.old.pending.tally.fed < 2 ^ 63 }
    ensures fed { OnOk result ((a : RunState) (given : RunInput) → Stands state.old a
        → Stands state.new (in_world a (feed_next given a.world (Some (FedTick seconds))))) }
    ensures err { OnErr result ((a : RunState) → Stands state.old a → Stands state.new a) }
{
    let end = state.pending.queues.len().min(MAX_NODES) as u32;
    widen_bridges(state, end)?;
    state.pending.feed();
    tick_all(state, end, seconds);
    Ok(())
}

/// Feeds an input. A command's line is told, and then it is refused, told the usage or accepted as an item with its tag: a message
/// at the node that its address leads to, or a packet, which has no tag, at the peer of a hook of the own node. A packet waits at
/// its port's node, and time at each bridge.
///
/// # Errors
/// `NoMemory` where memory ran out, and for nothing else; nothing but room changed. A message whose arguments are longer than a
/// number of 32 bits can say counts as out of memory.
pub fn feed_input<B: Node>(
    alloc: Global,
    state: &mut State<B>,
    input: &Input,
) -> Result<(), NoMemory>
    requires standing { (a : RunState) × Stands state.old a × IsLow a.world }
    requires fed { state.old.pending.tally.fed < 2 ^ 63 }
    requires fits { FitsInput (length state.old.ports.items) input.now }
    requires few { length state.old.ports.items ≤ most_ports }
    ensures fed { OnOk result ((a : RunState) (given : RunInput) → given.reading ≡ reading → Stands state.old a
        → Stands state.new (in_world a (feed_next given a.world (Some input.now)))) }
    ensures out { state.new.pending.out ≡ state.old.pending.out }
    ensures err { OnErr result ((a : RunState) → Stands state.old a → Stands state.new a) }
{
    match input {
        Input::Command(command) | Input::Late(command) => feed_command(alloc, state, command.get()),
        Input::Packet {
            port,
            stamp,
            packet,
        } => feed_packet(state, *port, *stamp, packet),
        Input::Tick(seconds) => feed_tick(state, *seconds),
    }
}
