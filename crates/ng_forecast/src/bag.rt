// Where the copies of all packets leave.
ghost use Rattle.std.specs.Prelude.{◌≡◌, ◌≤◌, ◌+◌, ◌<◌, ◌^◌, nat_lt, if◌then◌else◌, All, map, Some, None, IfOk, OnOk, IfErr, ◌⊎◌};
ghost use Rattle.ng_forecast.specs.spread.Weight.{weight_at, weight};
ghost use Rattle.ng_machine.specs.Outcome.{nothing};
ghost use Rattle.ng_machine.specs.Spread.{beside, spread_all, spread_in};
ghost use Rattle.ng_forecast.specs.spread.Met.{met_in};
ghost use Rattle.ng_forecast.specs.declared.ended.ForecastFault.TheVariants.{NoMemory as no_memory};
ghost use Rattle.ng_forecast.specs.Packets.{Fails, Passes, flight_of, most_met, most_weight, packet_fault};

use crate::spread::{Flight, Followed, Trail, follow};
use crate::{ForecastFault, Spread};
use ng_base::{NoMemory, Packet, Sequence};
use ng_core::Still;
use ng_machine::{Outcome, Place};
use ng_plan::node::Node;
use ng_plan::nothing;
use ngctl_script::feed::Arrival;
use std::alloc::Global;

// So many packets are met at the most.
const MOST_MET: u64 = 1_000_000;

// What leaves takes so many bytes at the most.
const MOST_WEIGHT: u64 = 536_870_912;

// How many bytes a packet takes, beside its own, that leaves the graph.
const HEAD: u64 = 16;

// What a packet takes at a place.
fn weight_at(place: &Place, packet: &Packet) -> u64
    ensures takes { result ≡ weight_at place.now packet.now }
    ensures low { result ≤ 2 ^ 63 + 16 }
{
    match place {
        Place::Wire(_) | Place::Reader(_) => HEAD + packet.bytes().len() as u64,
        Place::Host(_) => 0,
    }
}

// What packets take together, behind others that take so much: none where it is more than it may be.
fn weigh(so_far: u64, left: &[(Place, Packet)]) -> Option<u64>
    requires { so_far ≤ most_weight }
    ensures { result ≡ (if nat_lt most_weight (so_far + weight left.now) then None else Some (so_far + weight left.now)) }
{
    let mut total = so_far;
    for (place, packet) in left {
        total += weight_at(place, packet);
        if total > MOST_WEIGHT {
            return None;
        }
    }
    Some(total)
}

// A packet that comes by the wire of its port.
fn flight_of<B: Node>(still: &Still<'_, B>, arrival: &Arrival) -> Result<Flight, NoMemory>
    requires { arrival.now.port < still.now.ports }
    ensures { IfOk result (λ flight. flight ≡ flight_of arrival.now) }
{
    let Some(to) = still.port(arrival.port) else {
        unreachable!()
    };
    Ok(Flight::fed(to, arrival.packet.again()?))
}

// One packet more, by its number: what all that left takes then.
fn add_packet<B: Node>(
    alloc: Global,
    still: &Still<'_, B>,
    hops: u32,
    arrival: &Arrival,
    packet: u64,
    weight: u64,
    spare: &mut Outcome,
    trail: &mut Trail,
) -> Result<u64, ForecastFault>
    requires blank { spare.old ≡ nothing }
    requires port { arrival.now.port < still.now.ports }
    requires light { weight ≤ most_weight }
    requires room { trail.old.room ≤ most_met }
    ensures blank { OnOk result (spare.new ≡ nothing) }
    ensures passes { IfOk result (λ more. Passes packet weight trail.old.room (met_in still.now.nodes hops (flight_of arrival.now))
        (spread_in still.now.nodes hops (flight_of arrival.now)) more trail.new.room) }
    ensures bag { OnOk result (Some trail.new.bag.items ≡ beside (Some trail.old.bag.items) (spread_in still.now.nodes hops (flight_of arrival.now))) }
    ensures err { IfErr result (λ fault. (fault ≡ no_memory) ⊎ Fails packet weight trail.old.room (met_in still.now.nodes hops (flight_of arrival.now))
        (spread_in still.now.nodes hops (flight_of arrival.now)) fault) }
{
    let Ok(flight) = flight_of(still, arrival) else {
        return Err(ForecastFault::NoMemory);
    };
    let before = trail.bag.len();
    match follow(alloc, still, hops, &flight, spare, trail) {
        Ok(Followed::Everywhere) => {}
        Ok(Followed::Nowhere) => return Err(ForecastFault::Undefined { packet }),
        Ok(Followed::TooWide) => return Err(ForecastFault::Wide { packet }),
        Err(NoMemory) => return Err(ForecastFault::NoMemory),
    }
    match weigh(weight, &trail.bag[before..]) {
        Some(weight) => Ok(weight),
        None => Err(ForecastFault::Big { packet }),
    }
}

/// Where the copies of all packets leave, each of which may visit so many nodes.
///
/// # Errors
/// The fault of the first packet that has one, or `NoMemory` where memory ran out.
pub(crate) fn gather<B: Node>(
    alloc: Global,
    still: &Still<'_, B>,
    hops: u32,
    arrivals: &[Arrival],
) -> Result<Spread, ForecastFault>
    requires { All (λ arrival. arrival.port < still.now.ports) arrivals.now }
    ensures bag { IfOk result (λ bag. spread_all (λ f. spread_in still.now.nodes hops f) (map flight_of arrivals.now) ≡ Some bag) }
    ensures fine { OnOk result (packet_fault still.now.nodes hops (map flight_of arrivals.now) ≡ None) }
    ensures err { IfErr result (λ fault. (fault ≡ no_memory) ⊎ (packet_fault still.now.nodes hops (map flight_of arrivals.now) ≡ Some fault)) }
{
    let mut trail = Trail {
        room: MOST_MET,
        bag: Vec::new(alloc),
    };
    let mut spare = nothing(alloc);
    let mut weight = 0;
    for i in 0..arrivals.len() {
        let packet = i as u64 + 1;
        match add_packet(
            alloc,
            still,
            hops,
            &arrivals[i],
            packet,
            weight,
            &mut spare,
            &mut trail,
        ) {
            Ok(more) => weight = more,
            Err(fault) => return Err(fault),
        }
    }
    Ok(Sequence::from_vec(trail.bag))
}
