// Queues by the numbers of their nodes.
ghost use Rattle.std.specs.Prelude.{◌≡◌, ℕ, ◌+◌, ◌-◌, ◌<◌, ◌≤◌, ◌++◌, ◌∷◌, [], map, filter, set, length, replicate, None, Some, OnOk, OnErr, IfOk, IfSome, MatchOption};
ghost use Rattle.ng_queue.specs.Queue.{head, hold_of, take_out, put_back, is_other, mark_of, waiting_items, AllWait, IsBelow, IsOutAs, IsOut};
ghost use Rattle.ng_queue.specs.Queues.{list_at, spare_at, ready_of, NoneReady, IsLeast};
ghost use Rattle.ng_queue.specs.declared.entry.Entry.TheVariants.{Waiting};
ghost use Rattle.ng_machine.specs.World.{item_id};

use crate::ready::Ready;
use crate::{BoxedItem, Entry, NodeQueue};
use ng_base::{ItemId, NoMemory};
use ng_machine::Item;
use std::alloc::Global;
use std::collections::VecDeque;
use std::marker::Model;

/// A queue for each node, by number, all made at once, and the heads that can be taken, the least first. Finding that head
/// takes one step. A change of a queue looks at the heads in front of its own, or at those accepted later than its new one.
///
/// A contract sees the entries of each queue, and how many more items each has room for.
#[derive(Drop)]
pub struct Queues {
    queues: Vec<NodeQueue>,
    ready: Ready,
}

impl Model for Queues {
    ghost use Rattle.ng_queue.specs.Queues.{QueueLists};
    ghost use Rattle.ng_queue.specs.QueuesFields.{queue_lists_of, IsConsistent};

    ghost Value = { QueueLists };

    ghost view = { queue_lists_of };

    ghost invariant = { IsConsistent };
}

impl Queues {
    /// `n` queues with nothing in them and no room, for the numbers 0 to `n` - 1.
    ///
    /// # Errors
    /// `NoMemory` where memory ran out, and for nothing else.
    #[tactic(auto, using(crate::proofs::BlankLemmas::replicate_more))]
    pub fn new(alloc: Global, n: usize) -> Result<Queues, NoMemory>
        requires some { 0 < n }
        requires few { n < 4611686018427387904 }
        ensures lists { IfOk result (λ q. q.lists ≡ replicate n []) }
        ensures spares { IfOk result (λ q. q.spares ≡ replicate n 0) }
    {
        let mut queues = Vec::new(alloc);
        for i in 0..n {
            queues.push(NodeQueue::new(alloc)?)?;
        }
        let ready = Ready::new(alloc, n)?;
        Ok(Queues { queues, ready })
    }

    /// The number of the queue that has the least head of those that can be taken, or `None` where no queue lets its
    /// head be taken. It takes no memory.
    #[tactic(auto, using(crate::proofs::QueuesLemmas::none_ready, crate::proofs::QueuesLemmas::least_ready))]
    pub fn least(&self) -> Option<usize>
        ensures { MatchOption result (NoneReady self.now.lists) (IsLeast self.now.lists) }
    {
        self.ready.least()
    }

    /// How many queues there are.
    pub fn len(&self) -> usize
        ensures { result ≡ length self.now.lists }
    {
        self.queues.len()
    }

    /// The head of the queue that `least` answers.
    pub fn head(&self, at: usize) -> &Item
        requires { IsLeast self.now.lists at }
        ensures { head (list_at self.now.lists at) ≡ Some result.now }
    {
        match self.queues[at].head() {
            Some(item) => item,
            None => unreachable!(),
        }
    }

    /// The entries of a node's queue, in order of acceptance.
    pub fn entries(&self, at: usize) -> &VecDeque<Entry>
        requires { at < length self.now.lists }
        ensures { result.now.items ≡ list_at self.now.lists at }
    {
        self.queues[at].entries()
    }

    /// Makes room for at least one item more at this node.
    ///
    /// # Errors
    /// `NoMemory` where memory ran out, and for nothing else; all entries are then as before.
    pub fn widen(&mut self, at: usize) -> Result<(), NoMemory>
        requires { at < length self.old.lists }
        ensures lists { self.new.lists ≡ self.old.lists }
        ensures room { OnOk result (spare_at self.old.spares at + 1 ≤ spare_at self.new.spares at) }
        ensures more { (k : ℕ) → spare_at self.old.spares k ≤ spare_at self.new.spares k }
    {
        self.queues[at].widen()
    }

    /// Gives back room for one item at this node, where there is some. It takes no memory.
    pub fn narrow(&mut self, at: usize)
        requires { at < length self.old.lists }
        ensures lists { self.new.lists ≡ self.old.lists }
        ensures spares { self.new.spares ≡ set self.old.spares at (spare_at self.old.spares at - 1) }
    {
        self.queues[at].narrow();
    }

    /// Adds an item behind all others at this node, where there is room for it. Its number is above all there, and is
    /// not the greatest of 64 bits. It takes no memory.
    pub fn push(&mut self, at: usize, item: Item)
        requires there { at < length self.old.lists }
        requires room { 0 < spare_at self.old.spares at }
        requires above { IsBelow item.id (list_at self.old.lists at) }
        requires low { item.id.0 < 18446744073709551615 }
        ensures lists { self.new.lists ≡ set self.old.lists at (list_at self.old.lists at ++ Waiting item ∷ []) }
        ensures spares { self.new.spares ≡ set self.old.spares at (spare_at self.old.spares at - 1) }
    {
        self.queues[at].push(item);
        self.ready.put(at, self.queues[at].ready());
    }

    /// Takes the head of the queue that `least` answers. It takes no memory.
    pub fn take(&mut self, at: usize) -> BoxedItem
        requires { IsLeast self.old.lists at }
        ensures head { head (list_at self.old.lists at) ≡ Some result }
        ensures lists { self.new.lists ≡ set self.old.lists at (map (take_out result.id) (list_at self.old.lists at)) }
        ensures spares { self.new.spares ≡ self.old.spares }
    {
        let item = self.queues[at].take_head();
        self.ready.put(at, self.queues[at].ready());
        item
    }

    /// Takes the head of the queue that `least` answers out of it for good: what `take` and then `done` leave. It takes no memory.
    pub fn dequeue(&mut self, at: usize) -> BoxedItem
        requires { IsLeast self.old.lists at }
        ensures head { head (list_at self.old.lists at) ≡ Some result }
        ensures lists { self.new.lists ≡ set self.old.lists at (filter (is_other result.id) (list_at self.old.lists at)) }
        ensures spares { self.new.spares ≡ self.old.spares }
    {
        let item = self.queues[at].dequeue();
        self.ready.put(at, self.queues[at].ready());
        item
    }

    /// Puts an item back at its place, where an item of its number, mode and lane is out. It takes no memory.
    pub fn back(&mut self, at: usize, item: BoxedItem)
        requires there { at < length self.old.lists }
        requires out { IsOutAs (mark_of item) (list_at self.old.lists at) }
        ensures lists { self.new.lists ≡ set self.old.lists at (map (put_back item) (list_at self.old.lists at)) }
        ensures spares { self.new.spares ≡ self.old.spares }
    {
        self.queues[at].back(item);
        self.ready.put(at, self.queues[at].ready());
    }

    /// Forgets the item of this number, which is out at this node. It takes no memory.
    pub fn done(&mut self, at: usize, id: ItemId)
        requires there { at < length self.old.lists }
        requires out { IsOut id (list_at self.old.lists at) }
        ensures lists { self.new.lists ≡ set self.old.lists at (filter (is_other id) (list_at self.old.lists at)) }
        ensures spares { self.new.spares ≡ self.old.spares }
    {
        self.queues[at].done(id);
        self.ready.put(at, self.queues[at].ready());
    }

    /// Drops an item that isn't in its node's queue any more, and keeps its place for another of that node, where there is
    /// room for that. It takes no memory.
    pub fn reuse(&mut self, item: BoxedItem)
        ensures { self.new ≡ self.old }
    {
        let at = item.to.0 as usize;
        if at < self.queues.len() {
            self.queues[at].reuse(item);
        }
    }

    /// All items that wait at this node, in order, where none is out. It takes no memory.
    pub fn purge(&mut self, at: usize) -> Vec<Item>
        requires there { at < length self.old.lists }
        requires waits { AllWait (list_at self.old.lists at) }
        ensures items { result.items ≡ waiting_items (list_at self.old.lists at) }
        ensures lists { self.new.lists ≡ set self.old.lists at [] }
        ensures spares { self.new.spares ≡ set self.old.spares at 0 }
    {
        let items = self.queues[at].purge();
        self.ready.put(at, self.queues[at].ready());
        items
    }
}
