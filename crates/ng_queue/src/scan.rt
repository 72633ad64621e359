// Scans of the front of a queue, whose entries all wait from `reach` on.
ghost use Rattle.std.specs.Prelude.{◌≡◌, ◌<◌, ◌≤◌, drop, Some, None, IsNone};
ghost use Rattle.std.specs.VecDeque.{deque_len};
ghost use Rattle.ng_machine.specs.Body.{same_door, same_lane, share_lane};
ghost use Rattle.ng_queue.specs.Places.{IsHeadAt, IsOutAt};
ghost use Rattle.ng_queue.specs.Queue.{AllWait, IsOut, out_count, writer_out, lane_out, hold_of, hold_unless, readers_in, same_hook};

use crate::{Entry, Hold};
use ng_base::ItemId;
use ng_machine::{Door, Lane};
use std::collections::VecDeque;

/// Whether it is one door.
fn same_door(a: &Door, b: &Door) -> bool
    ensures { result ≡ same_door a.now b.now }
{
    match (a, b) {
        (Door::Wire, Door::Wire) => true,
        (Door::Hook(a), Door::Hook(b)) => *a == *b,
        (Door::Wire, Door::Hook(_)) | (Door::Hook(_), Door::Wire) => false,
    }
}

/// Whether it is one lane.
fn same_lane(a: &Lane, b: &Lane) -> bool
    ensures { result ≡ same_lane a.now b.now }
{
    match (a, b) {
        (Lane::Door(a), Lane::Door(b)) => same_door(a, b),
        (Lane::Sender(a), Lane::Sender(b)) => a.0 == b.0,
        (Lane::Door(_), Lane::Sender(_)) | (Lane::Sender(_), Lane::Door(_)) => false,
    }
}

/// Whether both have a lane, and it is one.
fn share_lane(a: &Option<Lane>, b: &Option<Lane>) -> bool
    ensures { result ≡ share_lane a.now b.now }
{
    match (a, b) {
        (Some(a), Some(b)) => same_lane(a, b),
        (None, _) | (Some(_), None) => false,
    }
}

/// The place of the first that waits, or the length where none does.
#[tactic(auto, using(crate::proofs::ScanLemmas::head_read, crate::proofs::ScanLemmas::head_here, crate::proofs::ScanLemmas::head_at,))]
pub fn first_waiting(entries: &VecDeque<Entry>, reach: usize) -> usize
    requires reach { reach ≤ deque_len entries.now }
    requires waits { AllWait (drop reach entries.now.items) }
    ensures { IsHeadAt entries.now.items result }
{
    for i in 0..reach {
        match &entries[i] {
            Entry::Waiting(_) => return i,
            Entry::Out(_) => {}
        }
    }
    reach
}

// The first writer that is out.
#[tactic(auto, using(crate::proofs::ScanLemmas::writer_read, crate::proofs::ScanLemmas::writer_pass, crate::proofs::ScanLemmas::writer_none,))]
fn find_writer_out(entries: &VecDeque<Entry>, reach: usize) -> Option<ItemId>
    requires reach { reach ≤ deque_len entries.now }
    requires waits { AllWait (drop reach entries.now.items) }
    ensures { result ≡ writer_out entries.now.items }
{
    for i in 0..reach {
        match &entries[i] {
            Entry::Waiting(_) => {}
            Entry::Out(mark) => {
                if mark.writer {
                    return Some(mark.id);
                }
            }
        }
    }
    None
}

// The first of this lane that is out.
#[tactic(auto, using(crate::proofs::ScanLemmas::lane_read, crate::proofs::ScanLemmas::lane_pass, crate::proofs::ScanLemmas::lane_none,))]
fn find_lane_out(entries: &VecDeque<Entry>, reach: usize, lane: &Option<Lane>) -> Option<ItemId>
    requires reach { reach ≤ deque_len entries.now }
    requires waits { AllWait (drop reach entries.now.items) }
    ensures { result ≡ lane_out lane.now entries.now.items }
{
    for i in 0..reach {
        match &entries[i] {
            Entry::Waiting(_) => {}
            Entry::Out(mark) => {
                if share_lane(&mark.lane, lane) {
                    return Some(mark.id);
                }
            }
        }
    }
    None
}

// How many are out.
#[tactic(auto, using(crate::proofs::ScanLemmas::out_read, crate::proofs::ScanLemmas::out_pass, crate::proofs::ScanLemmas::out_none,))]
fn count_out(entries: &VecDeque<Entry>, reach: usize) -> usize
    requires reach { reach ≤ deque_len entries.now }
    requires waits { AllWait (drop reach entries.now.items) }
    ensures { result ≡ out_count entries.now.items }
{
    let mut n: usize = 0;
    for i in 0..reach {
        match &entries[i] {
            Entry::Waiting(_) => {}
            Entry::Out(_) => n += 1,
        }
    }
    n
}

/// The place of the item of this number, which is out.
#[tactic(auto, using(crate::proofs::ScanLemmas::id_pass, crate::proofs::ScanLemmas::id_read, crate::proofs::ScanLemmas::out_here, crate::proofs::ScanLemmas::id_none,))]
pub fn find_place_out(entries: &VecDeque<Entry>, reach: usize, id: ItemId) -> usize
    requires reach { reach ≤ deque_len entries.now }
    requires waits { AllWait (drop reach entries.now.items) }
    requires out { IsOut id entries.now.items }
    ensures within { result < reach }
    ensures place { IsOutAt entries.now.items id result }
{
    for i in 0..reach {
        match &entries[i] {
            Entry::Waiting(_) => {}
            Entry::Out(mark) => {
                if mark.id.0 == id.0 {
                    return i;
                }
            }
        }
    }
    unreachable!()
}

/// Why the head can't be taken, which is at this place.
#[tactic(auto, using(crate::proofs::ScanLemmas::hold_empty, crate::proofs::ScanLemmas::hold_head, crate::proofs::ScanLemmas::hold_none,))]
pub fn hold(entries: &VecDeque<Entry>, reach: usize, at: usize) -> Option<Hold>
    requires reach { reach ≤ deque_len entries.now }
    requires waits { AllWait (drop reach entries.now.items) }
    requires head { IsHeadAt entries.now.items at }
    ensures hold { result ≡ hold_of entries.now.items }
    ensures there { IsNone result → at < deque_len entries.now }
{
    if at >= entries.len() {
        return Some(Hold::Empty);
    }
    match &entries[at] {
        // Where nothing is out, nothing holds the head back.
        Entry::Waiting(_) if reach == 0 => None,
        Entry::Waiting(item) => hold_item(entries, reach, item.writer, &item.body.lane()),
        Entry::Out(_) => unreachable!(),
    }
}

// Why an item of this mode and lane can't be taken.
fn hold_item(
    entries: &VecDeque<Entry>,
    reach: usize,
    writer: bool,
    lane: &Option<Lane>,
) -> Option<Hold>
    requires reach { reach ≤ deque_len entries.now }
    requires waits { AllWait (drop reach entries.now.items) }
    ensures { result ≡ hold_unless (writer_out entries.now.items) writer lane.now entries.now.items }
{
    if let Some(id) = find_writer_out(entries, reach) {
        return Some(Hold::WriterIn(id));
    }
    if writer {
        hold_writer(entries, reach)
    } else {
        hold_reader(entries, reach, lane)
    }
}

// What holds a writer: any item that is out.
fn hold_writer(entries: &VecDeque<Entry>, reach: usize) -> Option<Hold>
    requires reach { reach ≤ deque_len entries.now }
    requires waits { AllWait (drop reach entries.now.items) }
    ensures { result ≡ readers_in (out_count entries.now.items) }
{
    let n = count_out(entries, reach);
    if n > 0 {
        Some(Hold::ReadersIn(n))
    } else {
        None
    }
}

// What holds a reader: an item of its lane that is out.
fn hold_reader(entries: &VecDeque<Entry>, reach: usize, lane: &Option<Lane>) -> Option<Hold>
    requires reach { reach ≤ deque_len entries.now }
    requires waits { AllWait (drop reach entries.now.items) }
    ensures { result ≡ same_hook (lane_out lane.now entries.now.items) }
{
    match find_lane_out(entries, reach, lane) {
        None => None,
        Some(id) => Some(Hold::SameHook(id)),
    }
}
