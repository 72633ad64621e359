// A packet is followed through the graph.
ghost use Rattle.std.specs.Prelude.{◌≡◌, IfOk, OnOk};
ghost use Rattle.ng_machine.specs.Outcome.{nothing};
ghost use Rattle.ng_machine.specs.Spread.{spread_in};
ghost use Rattle.ng_forecast.specs.spread.Following.{Follows};
ghost use Rattle.ng_forecast.specs.spread.Met.{met_in};
ghost use Rattle.ng_forecast.specs.declared.spread.following.Trail.{Trail};

use crate::spread::fate::{arrives_at, sent_flight};
use crate::spread::{Fate, Flight, find_fate};
use ng_base::{NoMemory, Packet};
use ng_core::Still;
use ng_machine::{Outcome, Place};
use ng_plan::node::Node;
use std::alloc::Global;

/// How far packets were followed.
#[derive(Drop)]
pub struct Trail {
    /// How many more packets may be met.
    pub room: u64,
    /// The copies that left so far, each with the place where it left.
    pub bag: Vec<(Place, Packet)>,
}

/// How a packet was followed.
#[derive(Clone, Copy, Debug, PartialEq, Eq)]
pub enum Followed {
    /// To the places where all its copies left.
    Everywhere,
    /// It has no spread: a copy would have to be followed further than it may be, or came to a node where no one can say what
    /// becomes of it.
    Nowhere,
    /// More packets were met than there was room for.
    TooWide,
}

// A packet that may visit no more nodes: unless it vanishes, it would have to be followed further.
fn stop<B: Node>(still: &Still<'_, B>, flight: &Flight) -> Followed
    ensures { (trail : Trail) → Follows 0 (spread_in still.now.nodes 0 flight.now) result trail trail }
{
    match arrives_at(still, flight) {
        Some(_) => Followed::Nowhere,
        None => Followed::Everywhere,
    }
}

/// Follows a packet that may visit so many nodes, one after another, and adds what leaves to the bag. Each copy that is
/// met takes room. `spare` is an outcome that has nothing, whose memory is used again.
///
/// # Errors
/// `NoMemory` where memory ran out, and for nothing else. Nothing is said of the trail and of `spare` then.
pub fn follow<B: Node>(
    alloc: Global,
    still: &Still<'_, B>,
    hops: u32,
    flight: &Flight,
    spare: &mut Outcome,
    trail: &mut Trail,
) -> Result<Followed, NoMemory>
    requires { spare.old ≡ nothing }
    ensures blank { OnOk result (spare.new ≡ nothing) }
    ensures follows { IfOk result (λ followed. Follows (met_in still.now.nodes hops flight.now) (spread_in still.now.nodes hops flight.now) followed trail.old trail.new) }
{
    if hops == 0 {
        return Ok(stop(still, flight));
    }
    if trail.room == 0 {
        return Ok(Followed::TooWide);
    }
    trail.room -= 1;
    let sends = match find_fate(alloc, still, flight, spare, &mut trail.bag)? {
        Fate::Vanishes => return Ok(Followed::Everywhere),
        Fate::Untold => return Ok(Followed::Nowhere),
        Fate::Comes { sends } => sends,
    };
    let mut followed = Followed::Everywhere;
    let mut near: usize = 0;
    for (name, packet) in sends {
        let place = near;
        near = near.wrapping_add(1);
        let Some(copy) = sent_flight(still, flight.to, &name, packet, place) else {
            continue;
        };
        match follow(alloc, still, hops - 1, &copy, spare, trail)? {
            Followed::Everywhere => {}
            Followed::Nowhere => followed = Followed::Nowhere,
            Followed::TooWide => return Ok(Followed::TooWide),
        }
    }
    Ok(followed)
}
