// The list of inputs.
ghost use Rattle.std.specs.Prelude.{◌≡◌, ◌++◌, ◌∷◌, [], ◌<◌, ◌^◌, ◌*◌, OnOk, IfOk, All, map, length};
ghost use Rattle.ng_machine.specs.Feed.{later};
ghost use Rattle.ngctl_script.specs.feed.Inputs.{seconds, ticks, packet_input, inputs_of};
ghost use Rattle.ngctl_script.specs.feed.Merge.{merged, packet_count};
ghost use Rattle.ngctl_script.specs.feed.Dealing.{feeds, rest_from};
ghost use Rattle.ngctl_script.specs.feed.Early.{IsEarly};

use crate::Script;
use crate::feed::Arrival;
use crate::feed::commands::Commands;
use crate::feed::merge::take_next;
use crate::feed::queue::Queue;
use ng_base::{NoMemory, Stamp};
use ng_machine::Input;
use ng_pcap::{Capture, NANOS_PER_SECOND};
use std::alloc::Global;

fn seconds_from(first: Stamp, clock: Stamp) -> u64
    ensures { result ≡ seconds first clock }
{
    clock.0.saturating_sub(first.0) / NANOS_PER_SECOND
}

fn later_of(clock: Stamp, stamp: Stamp) -> Stamp
    ensures { result ≡ later clock stamp }
{
    Stamp(clock.0.max(stamp.0))
}

// Adds the whole seconds that go by until the packet comes, and the packet.
fn add_packet(
    inputs: &mut Vec<Input>,
    first: Stamp,
    clock: Stamp,
    arrival: Arrival,
) -> Result<(), NoMemory>
    requires clock { clock.0 < 2 ^ 32 * NANOS_PER_SECOND }
    requires arrival { arrival.stamp.0 < 2 ^ 32 * NANOS_PER_SECOND }
    ensures { OnOk result (inputs.new.items ≡ inputs.old.items ++ (ticks first clock arrival.stamp ++ packet_input arrival ∷ [])) }
{
    let now = later_of(clock, arrival.stamp);
    let passed = seconds_from(first, now).saturating_sub(seconds_from(first, clock));
    if passed > 0 {
        inputs.push(Input::Tick(passed as u32))?;
    }
    inputs.push(Input::Packet {
        port: arrival.port,
        stamp: arrival.stamp,
        packet: arrival.packet,
    })?;
    Ok(())
}

fn count(queues: &[Queue]) -> u128
    requires { length queues.now < 2 ^ 32 }
    ensures packets { result ≡ packet_count queues.now }
    ensures bound { result < 2 ^ 100 }
{
    let mut packets = 0;
    for queue in queues {
        packets += queue.len() as u128;
    }
    packets
}

fn queues_of(alloc: Global, captures: Vec<Capture>) -> Result<Vec<Queue>, NoMemory>
    requires { All (λ capture. All IsEarly capture.kept) captures.items }
    ensures { IfOk result (λ queues. queues.items ≡ map (λ capture. capture.kept) captures.items) }
{
    let mut queues = Vec::new(alloc);
    for capture in captures {
        queues.push(Queue::of(capture.kept))?;
    }
    Ok(queues)
}

// A list with room for so many commands and packets.
fn list_for(alloc: Global, commands: usize, packets: u128) -> Result<Vec<Input>, NoMemory>
    ensures { IfOk result (λ inputs. inputs.items ≡ []) }
{
    let packets = usize::try_from(packets).map_err(|_| NoMemory)?;
    let inputs = Vec::with_capacity(alloc, commands.saturating_add(packets))?;
    Ok(inputs)
}

// Feeds the packets, each behind the seconds that go by until it comes, and in front of the commands of its place.
fn feed_packets(
    inputs: &mut Vec<Input>,
    commands: &mut Commands,
    queues: &mut Vec<Queue>,
    packets: u128,
) -> Result<(), NoMemory>
    requires few { length queues.old.items < 2 ^ 32 }
    requires packets { packets ≡ length (merged queues.old.items) }
    requires bound { packets < 2 ^ 100 }
    ensures inputs { OnOk result (inputs.new.items ≡ inputs.old.items ++ feeds packets commands.old (merged queues.old.items)) }
    ensures rest { OnOk result (commands.new ≡ rest_from packets 1 commands.old (merged queues.old.items)) }
{
    let mut next = take_next(queues);
    let Some(arrival) = &next else {
        return Ok(());
    };
    let first = arrival.stamp;
    let mut clock = first;
    let mut place = 1;
    while let Some(arrival) = next {
        let now = later_of(clock, arrival.stamp);
        add_packet(inputs, first, clock, arrival)?;
        clock = now;
        place += 1;
        commands.feed_turn(inputs, packets, place)?;
        next = take_next(queues);
    }
    Ok(())
}

/// The list of inputs of a script and of captures, of which the first is received by port 0, the second by port 1 and so on.
///
/// Packets are merged by their times: again and again the capture whose next packet has the least time gives it, the first
/// one where times are equal. Commands without a mark come first, those of `@N` right behind packet N, or behind the last
/// packet where there are fewer, and those of `@end` last, once nothing is pending. The clock is the greatest time so far.
/// In front of each packet but the first, behind the commands of that place, stand the whole seconds that go by until then,
/// counted from the first packet, where they are any.
///
/// Each time lies below 2^32 seconds, as those of `read_capture` do. It takes time for each packet and command, and for each
/// packet a look at each capture.
///
/// # Errors
/// `NoMemory` where memory ran out, and for nothing else.
pub fn inputs(alloc: Global, script: Script, captures: Vec<Capture>) -> Result<Vec<Input>, NoMemory>
    requires few { length captures.items < 2 ^ 32 }
    requires early { All (λ capture. All IsEarly capture.kept) captures.items }
    ensures { IfOk result (λ inputs. inputs.items ≡ inputs_of script (map (λ capture. capture.kept) captures.items)) }
{
    let mut queues = queues_of(alloc, captures)?;
    let packets = count(&queues);
    let mut inputs = list_for(alloc, script.commands().len(), packets)?;
    let mut commands = Commands::of(alloc, script);
    commands.feed_turn(&mut inputs, packets, 0)?;
    commands.feed_turn(&mut inputs, packets, 1)?;
    feed_packets(&mut inputs, &mut commands, &mut queues, packets)?;
    commands.feed_late(&mut inputs)?;
    Ok(inputs)
}
