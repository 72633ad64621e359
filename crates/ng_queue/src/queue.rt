// A node's queue.
ghost use Rattle.std.specs.Prelude.{◌≡◌, ◌+◌, ◌-◌, ◌<◌, ◌≤◌, ◌++◌, ◌∷◌, [], map, filter, remove, set, vec_len, Some, None, OnOk, OnErr, IfOk, IfErr, MatchOption};
ghost use Rattle.std.specs.VecDeque.{deque_len, deque_capacity};
ghost use Rattle.ng_queue.specs.Places.{IsHeadAt};
ghost use Rattle.ng_queue.specs.Queue.{empty_queue, head, hold_of, take_out, put_back, is_other, mark_of, waiting_items, AllWait, IsBelow, IsOutAs, IsOut};
ghost use Rattle.ng_queue.specs.Queues.{ready_of};
ghost use Rattle.ng_queue.specs.Takeable.{IsTakeable};
ghost use Rattle.ng_queue.specs.declared.entry.Entry.TheVariants.{Waiting, Out};

use crate::scan::{find_place_out, first_waiting, hold};
use crate::{BoxedItem, Entry, Hold, Mark, Slot};
use ng_base::{ItemId, NoMemory};
use ng_machine::Item;
use std::alloc::Global;
use std::collections::VecDeque;
use std::marker::Model;
use std::mem;

/// The items that were accepted for a node, in order of acceptance, some of them out (netgraph(4): a node's
/// queue of readers and writers).
///
/// A contract sees the entries, and how many more items can be pushed without memory (`spare`).
#[derive(Drop)]
pub struct NodeQueue {
    entries: VecDeque<Entry>,
    // Room for all items, for a purge. It holds none.
    purged: Vec<Item>,
    // Places for the items that are pushed, and such as items left.
    slots: Vec<Slot>,
    // From here on all entries wait.
    reach: usize,
    spare: usize,
    alloc: Global,
}

impl Model for NodeQueue {
    ghost use Rattle.ng_queue.specs.QueueFields.{queue_of, IsConsistent};
    ghost use Rattle.ng_queue.specs.Queue.{Queue};

    ghost Value = { Queue };

    ghost view = { queue_of };

    ghost invariant = { IsConsistent };
}

fn mark_of(item: &Item) -> Mark
    ensures { result ≡ mark_of item.now }
{
    Mark {
        id: item.id,
        writer: item.writer,
        lane: item.body.lane(),
    }
}

// Takes the item at the head's place, and leaves its mark there.
#[tactic(auto, using(crate::proofs::ScanLemmas::head_not, crate::proofs::ScanLemmas::head_is))]
fn take_at(entries: &mut VecDeque<Entry>, at: usize) -> BoxedItem
    requires at { at < deque_len entries.old }
    requires head { IsHeadAt entries.old.items at }
    ensures item { head entries.old.items ≡ Some result }
    ensures items { entries.new.items ≡ set entries.old.items at (Out (mark_of result)) }
    ensures len { deque_len entries.new ≡ deque_len entries.old }
    ensures capacity { deque_capacity entries.new ≡ deque_capacity entries.old }
{
    let mark = match &entries[at] {
        Entry::Waiting(item) => mark_of(item),
        Entry::Out(mark) => *mark,
    };
    match mem::replace(&mut entries[at], Entry::Out(mark)) {
        Entry::Waiting(item) => item,
        Entry::Out(_) => unreachable!(),
    }
}

// Takes the entry at a place out.
#[tactic(auto, using(crate::proofs::OrderLemmas::first_removed))]
fn remove_at(entries: &mut VecDeque<Entry>, at: usize)
    requires { at < deque_len entries.old }
    ensures items { entries.new.items ≡ remove entries.old.items at }
    ensures len { deque_len entries.new + 1 ≡ deque_len entries.old }
    ensures capacity { deque_capacity entries.new ≡ deque_capacity entries.old }
{
    if at == 0 {
        let _first = entries.pop_front();
    } else {
        let _entry = entries.remove(at);
    }
}

// Takes the item at the head's place out.
fn remove_head(entries: &mut VecDeque<Entry>, at: usize) -> BoxedItem
    requires at { at < deque_len entries.old }
    requires head { IsHeadAt entries.old.items at }
    ensures item { head entries.old.items ≡ Some result }
    ensures items { entries.new.items ≡ remove entries.old.items at }
    ensures len { deque_len entries.new + 1 ≡ deque_len entries.old }
    ensures capacity { deque_capacity entries.new ≡ deque_capacity entries.old }
{
    let entry = if at == 0 {
        entries.pop_front()
    } else {
        entries.remove(at)
    };
    match entry {
        Some(Entry::Waiting(item)) => item,
        Some(Entry::Out(_)) | None => unreachable!(),
    }
}

// Makes places, until there are so many.
fn add_slots(slots: &mut Vec<Slot>, alloc: Global, n: usize) -> Result<(), NoMemory>
    ensures enough { OnOk result (n ≤ vec_len slots.new) }
    ensures more { vec_len slots.old ≤ vec_len slots.new }
{
    for _ in slots.len()..n {
        slots.push(Slot::new(alloc)?)?;
    }
    Ok(())
}

impl NodeQueue {
    /// No items, and no room for any.
    ///
    /// # Errors
    /// `NoMemory` where memory ran out, and for nothing else.
    pub fn new(alloc: Global) -> Result<NodeQueue, NoMemory>
        ensures { IfOk result (λ queue. queue ≡ empty_queue) }
    {
        Ok(NodeQueue {
            entries: VecDeque::new(alloc),
            purged: Vec::new(alloc),
            slots: Vec::new(alloc),
            reach: 0,
            spare: 0,
            alloc,
        })
    }

    /// Makes room for at least `n` items more: to be pushed, taken, put back and purged.
    ///
    /// # Errors
    /// `NoMemory` where memory ran out, and for nothing else; the queue is then as before.
    pub fn reserve(&mut self, _alloc: Global, n: usize) -> Result<(), NoMemory>
        ensures entries { self.new.entries ≡ self.old.entries }
        ensures room { OnOk result (n ≤ self.new.spare) }
        ensures spare { self.old.spare ≤ self.new.spare }
        ensures err { OnErr result (self.new ≡ self.old) }
    {
        if self.spare < n {
            self.entries.reserve(n)?;
            self.purged.reserve(self.entries.len() + n)?;
            add_slots(&mut self.slots, self.alloc, n)?;
            self.spare = n;
        }
        Ok(())
    }

    /// Makes room for at least one item more than there is room for.
    ///
    /// # Errors
    /// `NoMemory` where memory ran out, and for nothing else; the queue is then as before.
    pub fn widen(&mut self) -> Result<(), NoMemory>
        ensures entries { self.new.entries ≡ self.old.entries }
        ensures room { OnOk result (self.old.spare + 1 ≤ self.new.spare) }
        ensures spare { self.old.spare ≤ self.new.spare }
        ensures err { OnErr result (self.new ≡ self.old) }
    {
        let more = self.spare + 1;
        self.entries.reserve(more)?;
        self.purged.reserve(self.entries.len() + more)?;
        add_slots(&mut self.slots, self.alloc, more)?;
        self.spare = more;
        Ok(())
    }

    /// Gives back room for one item, where there is some. It takes no memory.
    pub fn narrow(&mut self)
        ensures entries { self.new.entries ≡ self.old.entries }
        ensures spare { self.new.spare ≡ self.old.spare - 1 }
    {
        self.spare = self.spare.saturating_sub(1);
    }

    /// Adds an item behind all others. There is room for it, and its number is above all in the queue. It takes no
    /// memory.
    #[tactic(auto, using(crate::proofs::OrderLemmas::ascends_push, crate::proofs::OrderLemmas::waits_push))]
    pub fn push(&mut self, item: Item)
        requires room { 0 < self.old.spare }
        requires above { IsBelow item.id self.old.entries }
        ensures entries { self.new.entries ≡ self.old.entries ++ Waiting item ∷ [] }
        ensures spare { self.new.spare + 1 ≡ self.old.spare }
    {
        let Some(slot) = self.slots.pop() else {
            unreachable!()
        };
        self.entries
            .push_back_reserved(Entry::Waiting(slot.fill(item)));
        self.spare -= 1;
    }

    /// The first item that waits, if any does. It takes no memory.
    #[tactic(auto, using(crate::proofs::ScanLemmas::head_not, crate::proofs::ScanLemmas::head_is, crate::proofs::ScanLemmas::head_none,))]
    pub fn head(&self) -> Option<&Item>
        ensures { MatchOption result
            (head self.now.entries ≡ None)
            (λ item. head self.now.entries ≡ Some item.now) }
    {
        let at = first_waiting(&self.entries, self.reach);
        if at >= self.entries.len() {
            return None;
        }
        match &self.entries[at] {
            Entry::Waiting(item) => Some(item),
            Entry::Out(_) => unreachable!(),
        }
    }

    /// All entries, in order of acceptance.
    pub fn entries(&self) -> &VecDeque<Entry>
        ensures { result.now.items ≡ self.now.entries }
    {
        &self.entries
    }

    /// Why the head can't be taken, or `None` where it can. It takes no memory.
    pub fn hold(&self) -> Option<Hold>
        ensures { result ≡ hold_of self.now.entries }
    {
        let at = first_waiting(&self.entries, self.reach);
        hold(&self.entries, self.reach, at)
    }

    /// Takes the first item that waits. The queue keeps its number, its mode and its lane. It takes no memory.
    ///
    /// # Errors
    /// The first of these that holds, and the queue is then as before: `Empty` where no item waits; `WriterIn` where
    /// a writer is out; `ReadersIn` where the head is a writer and other items are out; `SameHook` where the head is
    /// a reader and an item of its lane is out.
    pub fn take(&mut self) -> Result<BoxedItem, Hold>
        ensures refused { IfErr result (λ why. hold_of self.old.entries ≡ Some why) }
        ensures same { OnErr result (self.new ≡ self.old) }
        ensures free { OnOk result (hold_of self.old.entries ≡ None) }
        ensures takeable { IfOk result (λ item. IsTakeable self.old.entries item) }
        ensures entries { IfOk result (λ item. self.new.entries ≡ map (take_out item.id) self.old.entries) }
        ensures spare { self.new.spare ≡ self.old.spare }
        ensures head { IfOk result (λ item. head self.old.entries ≡ Some item) }
        // So the item can be put back, and its number can be forgotten.
        ensures backs { IfOk result (λ item. IsOutAs (mark_of item) self.new.entries) }
        ensures out { IfOk result (λ item. IsOut item.id self.new.entries) }
    {
        if let Some(why) = self.hold() {
            return Err(why);
        }
        Ok(self.take_head())
    }

    /// Takes the first item that waits, which nothing holds back. It takes no memory.
    #[tactic(auto, using(crate::proofs::OrderLemmas::take_out_head, crate::proofs::OrderLemmas::ascends_take_out, crate::proofs::OrderLemmas::waits_set,))]
    pub(crate) fn take_head(&mut self) -> BoxedItem
        requires { hold_of self.old.entries ≡ None }
        ensures takeable { IsTakeable self.old.entries result }
        ensures entries { self.new.entries ≡ map (take_out result.id) self.old.entries }
        ensures spare { self.new.spare ≡ self.old.spare }
        ensures head { head self.old.entries ≡ Some result }
        ensures backs { IsOutAs (mark_of result) self.new.entries }
        ensures out { IsOut result.id self.new.entries }
    {
        let at = first_waiting(&self.entries, self.reach);
        let item = take_at(&mut self.entries, at);
        self.reach = self.reach.max(at + 1);
        item
    }

    /// Takes the first item that waits out of the queue for good, which nothing holds back: what `take` and then `done` leave.
    /// It takes no memory.
    pub(crate) fn dequeue(&mut self) -> BoxedItem
        requires { hold_of self.old.entries ≡ None }
        ensures head { head self.old.entries ≡ Some result }
        ensures entries { self.new.entries ≡ filter (is_other result.id) self.old.entries }
        ensures spare { self.new.spare ≡ self.old.spare }
    {
        let at = first_waiting(&self.entries, self.reach);
        let item = remove_head(&mut self.entries, at);
        if at < self.reach {
            self.reach -= 1;
        }
        item
    }

    /// The number of the head, where it can be taken. It takes no memory.
    pub(crate) fn ready(&self) -> Option<u64>
        ensures { result ≡ ready_of self.now.entries }
    {
        let at = first_waiting(&self.entries, self.reach);
        if hold(&self.entries, self.reach, at).is_some() {
            return None;
        }
        match &self.entries[at] {
            Entry::Waiting(item) => Some(item.id.0),
            Entry::Out(_) => unreachable!(),
        }
    }

    /// Puts an item back at its place, where an item of its number, mode and lane is out. It takes no memory.
    #[tactic(auto, using(crate::proofs::OrderLemmas::out_id, crate::proofs::OrderLemmas::put_back_at, crate::proofs::OrderLemmas::ascends_put_back, crate::proofs::OrderLemmas::waits_set,))]
    pub fn back(&mut self, item: BoxedItem)
        requires { IsOutAs (mark_of item) self.old.entries }
        ensures entries { self.new.entries ≡ map (put_back item) self.old.entries }
        ensures spare { self.new.spare ≡ self.old.spare }
    {
        let at = find_place_out(&self.entries, self.reach, item.id);
        self.entries[at] = Entry::Waiting(item);
    }

    /// Forgets the item of this number, which is out. It takes no memory.
    #[tactic(auto, using(crate::proofs::OrderLemmas::removes_at, crate::proofs::OrderLemmas::ascends_removed, crate::proofs::OrderLemmas::waits_removed,))]
    pub fn done(&mut self, id: ItemId)
        requires { IsOut id self.old.entries }
        ensures entries { self.new.entries ≡ filter (is_other id) self.old.entries }
        ensures spare { self.new.spare ≡ self.old.spare }
    {
        let at = find_place_out(&self.entries, self.reach, id);
        remove_at(&mut self.entries, at);
        self.reach -= 1;
    }

    /// Drops an item that isn't in the queue, and keeps its place for one that will be, where there is room for that. It
    /// takes no memory.
    pub fn reuse(&mut self, item: BoxedItem)
        ensures { self.new ≡ self.old }
    {
        if self.slots.len() < self.slots.capacity() {
            self.slots.push_reserved(item.into_slot());
        }
    }

    /// All items that wait, in order, where none is out. The queue is empty then, and has room for none. It takes no
    /// memory.
    pub fn purge(&mut self) -> Vec<Item>
        requires { AllWait self.old.entries }
        ensures items { result.items ≡ waiting_items self.old.entries }
        ensures queue { self.new ≡ empty_queue }
    {
        while let Some(entry) = self.entries.pop_front() {
            if let Entry::Waiting(item) = entry {
                let (item, _slot) = item.part();
                self.purged.push_reserved(item);
            }
        }
        self.slots = Vec::new(self.alloc);
        self.reach = 0;
        self.spare = 0;
        mem::replace(&mut self.purged, Vec::new(self.alloc))
    }
}
