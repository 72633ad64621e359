// The next packet of several captures.
ghost use Rattle.std.specs.Prelude.{◌≡◌, ◌<◌, ◌^◌, Option, length, Some, None, ◌*◌, IfSome, MatchOption};
ghost use Rattle.ng_base.specs.declared.ids.Stamp.{Stamp};
ghost use Rattle.ngctl_script.specs.declared.feed.arrival.Arrival.{Arrival as AnArrival};
ghost use Rattle.ngctl_script.specs.feed.Merge.{earlier, next_from, without_next, merged, with_next};
ghost use Rattle.ngctl_script.specs.feed.Best.{IsBest};

use crate::feed::Arrival;
use crate::feed::queue::Queue;
use ng_base::Stamp;

/// A port and the time of its next packet.
#[derive(Clone, Copy)]
pub(super) struct Head {
    port: usize,
    stamp: Stamp,
}

// The one with the lesser time, and the first where the times are equal.
fn earlier_of(head: Head, other: Option<Head>) -> Head
    ensures { (arrival : AnArrival) (later : Option AnArrival) → arrival.port ≡ head.port → arrival.stamp ≡ head.stamp → IsBest other later
        → IsBest (Some result) (earlier arrival later) }
{
    match other {
        Some(other) if other.stamp.0 < head.stamp.0 => other,
        _ => head,
    }
}

// The port whose next packet comes first.
fn next_port(queues: &[Queue]) -> Option<Head>
    ensures { IsBest result (next_from 0 queues.now) }
{
    let mut best = None;
    let mut port = queues.len();
    while port > 0 {
        port -= 1;
        if let Some(stamp) = queues[port].first() {
            best = Some(earlier_of(Head { port, stamp }, best));
        }
    }
    best
}

fn take_first(queues: &mut Vec<Queue>) -> Option<Arrival>
    requires { length queues.old.items < 2 ^ 32 }
    ensures next { MatchOption result ((next_from 0 queues.old.items ≡ None) × (queues.new.items ≡ queues.old.items))
        (λ arrival. (next_from 0 queues.old.items ≡ Some arrival) × (queues.new.items ≡ without_next arrival.port queues.old.items)) }
    ensures early { IfSome result (λ arrival. arrival.stamp.0 < 2 ^ 32 * 1000000000) }
{
    let head = next_port(queues)?;
    let queue = &mut queues[head.port];
    let (stamp, packet) = queue.take()?;
    Some(Arrival {
        port: head.port as u32,
        stamp,
        packet,
    })
}

/// Takes the packet that comes first.
pub(super) fn take_next(queues: &mut Vec<Queue>) -> Option<Arrival>
    requires { length queues.old.items < 2 ^ 32 }
    ensures rest { merged queues.old.items ≡ with_next result (merged queues.new.items) }
    ensures queues { length queues.new.items ≡ length queues.old.items }
    ensures early { IfSome result (λ arrival. arrival.stamp.0 < 2 ^ 32 * 1000000000) }
{
    take_first(queues)
}
