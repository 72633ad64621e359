// What an event is kept as.
ghost use Rattle.std.specs.Prelude.{◌≡◌, [], ◌∷◌, is_some, nat_lt, IfSome, Some};
ghost use Rattle.ng_journal.specs.kept.Shorts.{greats_in, is_small, of_short};

use ng_base::{Event, ItemId};

/// An event of eight bytes.
#[derive(Clone, Copy, Debug, PartialEq, Eq)]
pub(super) enum Short {
    Feed,
    Take { seat: u16, id: u32 },
    Back { id: u32 },
    Apply { id: u32 },
    Stop,
    /// The next of the events whose numbers are greater, which stand in a list of their own.
    Great,
}

/// The number of an item in 32 bits, where it is small enough.
fn short_id(id: ItemId) -> Option<u32>
    ensures short { IfSome result (λ short. short ≡ id.0) }
    ensures small { is_some result ≡ nat_lt id.0 4294967296 }
{
    if id.0 < 4_294_967_296 {
        Some(id.0 as u32)
    } else {
        None
    }
}

/// The number of a seat in 16 bits, where it is small enough.
fn short_seat(seat: u32) -> Option<u16>
    ensures short { IfSome result (λ short. short ≡ seat) }
    ensures small { is_some result ≡ nat_lt seat 65536 }
{
    if seat < 65_536 {
        Some(seat as u16)
    } else {
        None
    }
}

/// The event in eight bytes, where its numbers are small enough.
pub(super) fn shorten(event: Event) -> Option<Short>
    ensures short { IfSome result (λ short. of_short short ≡ Some event) }
    ensures small { is_some result ≡ is_small event }
{
    Some(match event {
        Event::Feed => Short::Feed,
        Event::Take { seat, id } => Short::Take {
            seat: short_seat(seat)?,
            id: short_id(id)?,
        },
        Event::Back { id } => Short::Back { id: short_id(id)? },
        Event::Apply { id } => Short::Apply { id: short_id(id)? },
        Event::Stop => Short::Stop,
    })
}

/// The event, or `None` where it is one of those whose numbers are greater.
pub(super) fn lengthen(short: Short) -> Option<Event>
    ensures { result ≡ of_short short }
{
    Some(match short {
        Short::Feed => Event::Feed,
        Short::Take { seat, id } => Event::Take {
            seat: u32::from(seat),
            id: ItemId(u64::from(id)),
        },
        Short::Back { id } => Event::Back {
            id: ItemId(u64::from(id)),
        },
        Short::Apply { id } => Event::Apply {
            id: ItemId(u64::from(id)),
        },
        Short::Stop => Event::Stop,
        Short::Great => return None,
    })
}

/// 1 where the event has great numbers, and else 0.
fn great(short: Short) -> usize
    ensures { result ≡ greats_in (short ∷ []) }
{
    match short {
        Short::Great => 1,
        _ => 0,
    }
}

/// How many of these are of great numbers.
pub(super) fn greats_among(shorts: &[Short]) -> usize
    ensures { result ≡ greats_in shorts.now }
{
    let mut count = 0;
    for short in shorts {
        count += great(*short);
    }
    count
}
