// The items that wait.
ghost use Rattle.std.specs.Prelude.{◌≡◌, ℕ, ◌+◌, ◌-◌, ◌<◌, ◌≤◌, ◌^◌, length, slice_set, List, OnOk, IfOk, IfSome, IfNone, Some, nat_le, nat_lt, not, filter};
ghost use Rattle.ng_machine.specs.declared.item.Item.{Item as TheItem};
ghost use Rattle.ng_machine.specs.Body.{is_frame};
ghost use Rattle.ng_machine.specs.Change.{accept, frames, items_of, lose, most_frames, most_spool, retire, spool_with};
ghost use Rattle.ng_machine.specs.Feed.{later};
ghost use Rattle.ng_machine.specs.Orderly.{MayTake};
ghost use Rattle.ng_machine.specs.Refusal.{feed_refusal};
ghost use Rattle.ng_machine.specs.Run.{RunState, beginning};
ghost use Rattle.ng_machine.specs.World.{start_of};
ghost use Rattle.ng_base.specs.declared.kind.Kind.{Kind as TheKind};
ghost use Rattle.ng_queue.specs.Queue.{head, is_other};
ghost use Rattle.ng_queue.specs.Queues.{IsLeast, list_at, spare_at};
ghost use Rattle.ng_machine.specs.story.Story.{IsNext};
ghost use Rattle.ng_queue.specs.tally.Feeding.{TagsAreLast};
ghost use Rattle.ng_queue.specs.tally.Tally.{HasNumbers};
ghost use Rattle.ng_queue.specs.tie.TieLaws.{one};
ghost use Rattle.ng_queue.specs.pending.Holds.{HoldsItems, IsHolding, IsOutIn, NoneOut, in_world, with_taken, with_untaken, done_from, dropped_from, spooled};

use crate::tally::Tally;
use crate::{BoxedItem, Queues};
use ng_base::{Cause, ItemId, Kind, NoMemory, NodeId, Packet, Stamp};
use ng_machine::{Body, Fed, Input, Item, Lost};
use std::alloc::Global;

// As many packets may wait where one more is sent.
const MOST_FRAMES: u64 = 4096;

/// The items that wait, in the queues of their nodes, with how many of them are taken, and the counts of the world.
#[derive(Drop)]
pub struct Pending {
    /// A queue for each node that there can be.
    pub queues: Queues,
    /// The counts.
    pub tally: Tally,
    /// How many items are taken.
    pub out: u64,
}

impl Pending {
    /// Nothing waits, and nothing was counted yet; there may be nodes with the numbers 0 to `nodes` - 1.
    ///
    /// # Errors
    /// `NoMemory` where memory ran out, and for nothing else.
    pub fn new(alloc: Global, nodes: usize) -> Result<Self, NoMemory>
        requires some { 0 < nodes }
        requires few { nodes < 4611686018427387904 }
        ensures holds { IfOk result (λ pending. (own : List ℕ) (ports : List (List ℕ)) (stock : List TheKind)
            → HoldsItems pending (beginning (start_of own ports stock))) }
        ensures lists { IfOk result (λ pending. length pending.queues.lists ≡ nodes) }
        ensures numbers { IfOk result (λ pending. HasNumbers (2 ^ 62) pending.tally) }
    {
        let queues = Queues::new(alloc, nodes)?;
        let lost = Lost {
            no_peer: 0,
            node_gone: 0,
            full: 0,
            spool: 0,
        };
        let tally = Tally {
            done: 0,
            node_gone: 0,
            hook_gone: 0,
            budget: 0,
            lost,
            refused: 0,
            spool: 0,
            fed: 0,
            applies: 0,
            next_item: 1,
            clock: Stamp(0),
            command: 0,
            pending: 0,
            frames: 0,
            ticks: 0,
            tagged: 0,
        };
        Ok(Pending {
            queues,
            tally,
            out: 0,
        })
    }

    /// The queue with the least item that may be taken, if there is one.
    pub fn least(&self) -> Option<usize>
        requires { IsHolding self.now }
        ensures none { IfNone result ((a : RunState) → HoldsItems self.now a → (item : TheItem) → MayTake a item → ⊥) }
        ensures some { IfSome result (λ at. IsLeast self.now.queues.lists at) }
        ensures next { IfSome result (λ at. (a : RunState) (item : TheItem) → HoldsItems self.now a
            → head (list_at self.now.queues.lists at) ≡ Some item → IsNext a item) }
    {
        let Some(at) = self.queues.least() else {
            return None;
        };
        Some(at)
    }

    /// The item that `least` leads to.
    pub fn head(&self, at: usize) -> &Item
        requires { IsLeast self.now.queues.lists at }
        ensures { head (list_at self.now.queues.lists at) ≡ Some result.now }
    {
        self.queues.head(at)
    }

    /// A seat takes the item that `least` leads to.
    pub fn take(&mut self, at: usize, _seat: u32) -> BoxedItem
        requires least { IsLeast self.old.queues.lists at }
        requires holds { IsHolding self.old }
        requires few { self.old.out + 1 < 2 ^ 64 }
        ensures head { head (list_at self.old.queues.lists at) ≡ Some result }
        ensures next { (a : RunState) → HoldsItems self.old a → IsNext a result × (result.to.0 ≡ at) }
        ensures holds { (a : RunState) → HoldsItems self.old a → HoldsItems self.new (with_taken a result.id.0 _seat) }
        ensures tally { self.new.tally ≡ self.old.tally }
        ensures spares { self.new.queues.spares ≡ self.old.queues.spares }
        ensures lists { length self.new.queues.lists ≡ length self.old.queues.lists }
    {
        let item = self.queues.take(at);
        self.out += 1;
        item
    }

    /// A taken item is put back at its place.
    pub fn back(&mut self, item: BoxedItem)
        requires { (a : RunState) × HoldsItems self.old a × IsOutIn a item }
        ensures holds { (a : RunState) → HoldsItems self.old a → IsOutIn a item → HoldsItems self.new (with_untaken a item.id.0) }
        ensures tally { self.new.tally ≡ self.old.tally }
        ensures spares { self.new.queues.spares ≡ self.old.queues.spares }
        ensures lists { length self.new.queues.lists ≡ length self.old.queues.lists }
    {
        self.queues.back(item.to.0 as usize, item);
        self.out -= 1;
    }

    // A taken item leaves its queue.
    fn forget(&mut self, item: &Item)
        requires { (a : RunState) × HoldsItems self.old a × IsOutIn a item.now }
        ensures after { self.new.queues.lists ≡ slice_set self.old.queues.lists item.now.to.0 (filter (is_other item.now.id) (list_at self.old.queues.lists item.now.to.0)) }
        ensures spares { self.new.queues.spares ≡ self.old.queues.spares }
        ensures tally { self.new.tally ≡ self.old.tally }
        ensures out { self.new.out + 1 ≡ self.old.out }
    {
        self.queues.done(item.to.0 as usize, item.id);
        self.out -= 1;
    }

    /// A taken item is done.
    pub fn finish(&mut self, item: &Item)
        requires out { (a : RunState) × HoldsItems self.old a × IsOutIn a item.now }
        requires numbers { HasNumbers 1 self.old.tally }
        ensures holds { (a : RunState) → HoldsItems self.old a → IsOutIn a item.now → HoldsItems self.new (done_from a item.now) }
        ensures spares { self.new.queues.spares ≡ self.old.queues.spares }
        ensures lists { length self.new.queues.lists ≡ length self.old.queues.lists }
        ensures numbers { (k : ℕ) → HasNumbers (k + 1) self.old.tally → HasNumbers k self.new.tally }
        ensures frames { self.old.tally.frames ≤ self.new.tally.frames + 1 }
    {
        self.forget(item);
        self.tally.finish(item);
    }

    /// The item that `least` leads to is done at once: what `take` and then `finish` leave.
    pub fn dequeue(&mut self, at: usize, _seat: u32) -> BoxedItem
        requires least { IsLeast self.old.queues.lists at }
        requires holds { IsHolding self.old }
        requires numbers { HasNumbers 1 self.old.tally }
        ensures head { head (list_at self.old.queues.lists at) ≡ Some result }
        ensures next { (a : RunState) → HoldsItems self.old a → IsNext a result × (result.to.0 ≡ at) }
        ensures holds { (a : RunState) → HoldsItems self.old a → HoldsItems self.new (done_from (with_taken a result.id.0 _seat) result) }
        ensures spares { self.new.queues.spares ≡ self.old.queues.spares }
        ensures lists { length self.new.queues.lists ≡ length self.old.queues.lists }
        ensures numbers { (k : ℕ) → HasNumbers (k + 1) self.old.tally → HasNumbers k self.new.tally }
        ensures frames { self.old.tally.frames ≤ self.new.tally.frames + 1 }
    {
        let item = self.queues.dequeue(at);
        self.tally.finish(&item);
        item
    }

    /// A taken item is dropped, since its hook is gone.
    pub fn drop_for_hook(&mut self, item: &Item)
        requires out { (a : RunState) × HoldsItems self.old a × IsOutIn a item.now }
        requires numbers { HasNumbers 1 self.old.tally }
        ensures holds { (a : RunState) → HoldsItems self.old a → IsOutIn a item.now → HoldsItems self.new (dropped_from a item.now) }
        ensures spares { self.new.queues.spares ≡ self.old.queues.spares }
        ensures lists { length self.new.queues.lists ≡ length self.old.queues.lists }
        ensures numbers { (k : ℕ) → HasNumbers (k + 1) self.old.tally → HasNumbers k self.new.tally }
        ensures frames { self.old.tally.frames ≤ self.new.tally.frames + 1 }
    {
        self.forget(item);
        self.tally.drop_for_hook(item);
    }

    /// Drops an item that is done, and keeps its place for another of its node. It takes no memory.
    pub fn reuse(&mut self, item: BoxedItem)
        ensures { self.new ≡ self.old }
    {
        self.queues.reuse(item);
    }

    /// Makes room for one item more at a node that has a queue.
    ///
    /// # Errors
    /// `NoMemory` where memory ran out, and for nothing else; nothing but room changed.
    pub fn widen(&mut self, to: NodeId) -> Result<(), NoMemory>
        requires { to.0 < length self.old.queues.lists }
        ensures holds { (a : RunState) → HoldsItems self.old a → HoldsItems self.new a }
        ensures lists { self.new.queues.lists ≡ self.old.queues.lists }
        ensures tally { self.new.tally ≡ self.old.tally }
        ensures room { OnOk result (spare_at self.old.queues.spares to.0 + 1 ≤ spare_at self.new.queues.spares to.0) }
        ensures more { (n : ℕ) → spare_at self.old.queues.spares n ≤ spare_at self.new.queues.spares n }
    {
        self.queues.widen(to.0 as usize)
    }

    /// Gives back room for one item at a node that has a queue, where there is some.
    pub fn narrow(&mut self, to: NodeId)
        requires { to.0 < length self.old.queues.lists }
        ensures holds { (a : RunState) → HoldsItems self.old a → HoldsItems self.new a }
        ensures lists { self.new.queues.lists ≡ self.old.queues.lists }
        ensures tally { self.new.tally ≡ self.old.tally }
        ensures spares { self.new.queues.spares ≡ slice_set self.old.queues.spares to.0 (spare_at self.old.queues.spares to.0 - 1) }
    {
        self.queues.narrow(to.0 as usize);
    }

    /// An item is accepted, where its node has room: it gets the next number and its mode, and stands last.
    pub fn accept(&mut self, to: NodeId, kind: Kind, body: Body, tag: Option<u32>, stamp: Stamp)
        requires holds { IsHolding self.old }
        requires there { to.0 < length self.old.queues.lists }
        requires room { 0 < spare_at self.old.queues.spares to.0 }
        requires numbers { HasNumbers 1 self.old.tally }
        ensures holds { (a : RunState) → HoldsItems self.old a → HoldsItems self.new (in_world a (accept a.world to kind body tag stamp)) }
        ensures spares { self.new.queues.spares ≡ slice_set self.old.queues.spares to.0 (spare_at self.old.queues.spares to.0 - 1) }
        ensures lists { length self.new.queues.lists ≡ length self.old.queues.lists }
        ensures numbers { (k : ℕ) → HasNumbers (k + 1) self.old.tally → HasNumbers k self.new.tally }
        ensures frames { self.new.tally.frames ≡ self.old.tally.frames + one (is_frame body) }
    {
        let writer = body.is_writer(kind);
        let item = Item {
            id: ItemId(self.tally.next_item),
            to,
            body,
            writer,
            tag,
            stamp,
        };
        self.tally.accept(&item);
        self.queues.push(to.0 as usize, item);
    }

    /// What waits for a node that goes is dropped, in order: the items.
    pub fn retire(&mut self, at: NodeId) -> Vec<Item>
        requires out { (a : RunState) × HoldsItems self.old a × NoneOut a at.0 }
        requires there { at.0 < length self.old.queues.lists }
        requires numbers { HasNumbers 0 self.old.tally }
        ensures items { (a : RunState) → HoldsItems self.old a → NoneOut a at.0 → result.items ≡ items_of a.world at }
        ensures holds { (a : RunState) → HoldsItems self.old a → NoneOut a at.0 → HoldsItems self.new (in_world a (retire a.world at)) }
        ensures spares { self.new.queues.spares ≡ slice_set self.old.queues.spares at.0 0 }
        ensures lists { length self.new.queues.lists ≡ length self.old.queues.lists }
        ensures numbers { (k : ℕ) → HasNumbers k self.old.tally → HasNumbers k self.new.tally }
    {
        let items = self.queues.purge(at.0 as usize);
        self.tally.drop_for_node(&items);
        items
    }

    /// A packet is lost for this cause.
    pub fn lose(&mut self, cause: Cause)
        requires { HasNumbers 1 self.old.tally }
        ensures holds { (a : RunState) → HoldsItems self.old a → HoldsItems self.new (in_world a (lose cause a.world)) }
        ensures queues { self.new.queues ≡ self.old.queues }
        ensures numbers { (k : ℕ) → HasNumbers (k + 1) self.old.tally → HasNumbers k self.new.tally }
        ensures frames { self.new.tally.frames ≡ self.old.tally.frames }
    {
        self.tally.lose(cause);
    }

    /// A packet is refused by a node.
    pub fn refuse(&mut self)
        requires { HasNumbers 1 self.old.tally }
        ensures holds { (a : RunState) → HoldsItems self.old a → HoldsItems self.new (in_world a (record a.world { refused = a.world.refused + 1 })) }
        ensures queues { self.new.queues ≡ self.old.queues }
        ensures numbers { (k : ℕ) → HasNumbers (k + 1) self.old.tally → HasNumbers k self.new.tally }
        ensures frames { self.new.tally.frames ≡ self.old.tally.frames }
    {
        self.tally.refuse();
    }

    /// A packet leaves or is told, where there is room for its bytes: whether it does. Else it is lost.
    pub fn leave(&mut self, packet: &Packet) -> bool
        requires { HasNumbers 1 self.old.tally }
        ensures answer { (a : RunState) → HoldsItems self.old a → nat_le (spool_with a.world packet.now) most_spool ≡ result }
        ensures holds { (a : RunState) → HoldsItems self.old a → HoldsItems self.new (in_world a (spooled result a.world packet.now)) }
        ensures queues { self.new.queues ≡ self.old.queues }
        ensures numbers { (k : ℕ) → HasNumbers (k + 1) self.old.tally → HasNumbers k self.new.tally }
        ensures frames { self.new.tally.frames ≡ self.old.tally.frames }
    {
        self.tally.leave(packet)
    }

    /// An input is fed.
    pub fn feed(&mut self)
        requires { self.old.tally.fed < 2 ^ 63 }
        ensures holds { (a : RunState) → HoldsItems self.old a → HoldsItems self.new (in_world a (record a.world { fed = a.world.fed + 1 })) }
        ensures queues { self.new.queues ≡ self.old.queues }
        ensures numbers { (k : ℕ) → HasNumbers k self.old.tally → HasNumbers k self.new.tally }
    {
        self.tally.feed();
    }

    /// A command of this number is fed.
    pub fn begin_command(&mut self, number: u32)
        ensures holds { (a : RunState) → HoldsItems self.old a → HoldsItems self.new (in_world a (record a.world { command = number })) }
        ensures queues { self.new.queues ≡ self.old.queues }
        ensures numbers { (k : ℕ) → HasNumbers k self.old.tally → HasNumbers k self.new.tally }
    {
        self.tally.begin_command(number);
    }

    /// A packet of this time is fed.
    pub fn pass_time(&mut self, stamp: Stamp)
        ensures holds { (a : RunState) → HoldsItems self.old a
            → HoldsItems self.new (in_world a (record a.world { clock = later a.world.clock stamp })) }
        ensures queues { self.new.queues ≡ self.old.queues }
        ensures numbers { (k : ℕ) → HasNumbers k self.old.tally → HasNumbers k self.new.tally }
    {
        self.tally.pass_time(stamp);
    }

    /// Whether as many packets wait as may wait where one more is sent.
    pub fn is_full(&self) -> bool
        ensures answer { (a : RunState) → HoldsItems self.now a → nat_lt (frames a.world) most_frames ≡ not result }
        ensures full { nat_lt self.now.tally.frames most_frames ≡ not result }
    {
        self.tally.frames >= MOST_FRAMES
    }

    /// For how many packets more there is a place at most, once one item more is done.
    pub fn free(&self) -> u64
        ensures { result ≡ most_frames + 1 - self.now.tally.frames }
    {
        (MOST_FRAMES + 1).saturating_sub(self.tally.frames)
    }

    /// Why the input isn't fed, where as many items may be applied as `budget` says: the first cause that holds.
    pub fn refusal(&self, budget: u64, input: &Input) -> Option<Fed>
        ensures { (a : RunState) → HoldsItems self.now a → TagsAreLast a.world → result ≡ feed_refusal budget a.world input.now }
    {
        self.tally.refusal(budget, input)
    }
}
