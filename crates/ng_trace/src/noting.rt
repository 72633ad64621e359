// What is noted after an item was applied.
ghost use Rattle.std.specs.Prelude.{◌≡◌, ◌++◌, ◌-◌, replicate, IfOk, OnOk};
ghost use Rattle.ng_machine.specs.declared.item.Item.{Item as TheItem};
ghost use Rattle.ng_machine.specs.Run.{RunState};
ghost use Rattle.ng_machine.specs.World.{node_at};
ghost use Rattle.ng_core_state.specs.Stands.{Stands};
ghost use Rattle.ng_trace.specs.Endings.{endings, has_left, lost_between, packet_endings, refused_by};
ghost use Rattle.ng_trace.specs.Seen.{IsSeen};
ghost use Rattle.ng_trace.specs.Watch.{watch_item};

use crate::looking::Seen;
use crate::{Came, Ending, Watched};
use ng_base::{Cause, Errno, NoMemory};
use ng_core_state::State;
use ng_machine::Lost;
use ng_plan::node::Node;
use std::alloc::Global;

// So often the same ending more.
fn push_times(count: u64, why: Ending, out: &mut Vec<Ending>) -> Result<(), NoMemory>
    ensures { OnOk result (out.new.items ≡ out.old.items ++ replicate count why) }
{
    for _ in 0..count {
        out.push(why)?;
    }
    Ok(())
}

// Packets that were lost meanwhile.
fn push_lost(old: &Lost, new: &Lost, out: &mut Vec<Ending>) -> Result<(), NoMemory>
    ensures { OnOk result (out.new.items ≡ out.old.items ++ lost_between old.now new.now) }
{
    let no_peer = new.no_peer.saturating_sub(old.no_peer);
    let node_gone = new.node_gone.saturating_sub(old.node_gone);
    let full = new.full.saturating_sub(old.full);
    let spool = new.spool.saturating_sub(old.spool);
    push_times(no_peer, Ending::Lost(Cause::NoPeer), out)?;
    push_times(node_gone, Ending::Lost(Cause::NodeGone), out)?;
    push_times(full, Ending::Lost(Cause::Full), out)?;
    push_times(spool, Ending::Lost(Cause::Spool), out)
}

fn push_refused(errno: Errno, out: &mut Vec<Ending>) -> Result<(), NoMemory>
    ensures { OnOk result (out.new.items ≡ out.old.items ++ refused_by errno) }
{
    if errno.0 != 0 {
        out.push(Ending::Refused(errno))?;
    }
    Ok(())
}

// What ended of a packet.
fn packet_endings(
    alloc: Global,
    came: &Came,
    old: &Lost,
    new: &Lost,
) -> Result<Vec<Ending>, NoMemory>
    ensures { IfOk result (λ all. all.items ≡ packet_endings came.now.gone came.now (lost_between old.now new.now)) }
{
    let mut all = Vec::new(alloc);
    if came.gone {
        all.push(Ending::Dropped(Cause::HookGone))?;
        return Ok(all);
    }
    push_refused(came.errno, &mut all)?;
    push_lost(old, new, &mut all)?;
    if came.silent {
        all.push(Ending::Ended)?;
    }
    Ok(all)
}

// What ended of an item.
fn endings(
    alloc: Global,
    came: &Option<Came>,
    old: &Lost,
    new: &Lost,
) -> Result<Vec<Ending>, NoMemory>
    ensures { IfOk result (λ all. all.items ≡ endings came.now old.now new.now) }
{
    match came {
        Some(came) => packet_endings(alloc, came, old, new),
        None => {
            let mut all = Vec::new(alloc);
            push_lost(old, new, &mut all)?;
            Ok(all)
        }
    }
}

// Whether a copy left, and wasn't lost for want of room.
fn has_left(came: &Option<Came>, old: &Lost, new: &Lost) -> bool
    ensures { result ≡ has_left came.now old.now new.now }
{
    match came {
        Some(came) => new.spool.saturating_sub(old.spool) < came.leaves,
        None => false,
    }
}

/// Notes what became of an item, which was seen before it was applied.
///
/// # Errors
/// `NoMemory` where memory ran out, or where a count would be greater than 2^64 - 1.
pub(crate) fn note_seen<B: Node>(
    alloc: Global,
    state: &State<B>,
    seen: &Seen,
    watched: &mut Watched,
) -> Result<(), NoMemory>
    ensures { (at now : RunState) (item : TheItem) → IsSeen at item seen.now → Stands state.now now
        → OnOk result (watched.new ≡ watch_item at now.world item (node_at at.world item.to) watched.old) }
{
    let lost = state.pending.tally.lost;
    let made = state.pending.tally.next_item.saturating_sub(seen.next_item);
    watched.add_items(made, watched.origin_of(seen.id))?;
    let Some(spot) = &seen.spot else {
        return Ok(());
    };
    watched.note_reached(has_left(&seen.came, &seen.lost, &lost), seen.id);
    let endings = endings(alloc, &seen.came, &seen.lost, &lost)?;
    watched.note_endings(spot, &endings)?;
    if state.graph.kind(seen.to).is_none() {
        watched.note_drops(Ending::Dropped(Cause::NodeGone), &seen.waiting)?;
    }
    Ok(())
}
