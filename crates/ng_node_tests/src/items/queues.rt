// What is taken, held back and put back, item by item.
ghost use Rattle.std.specs.Prelude.{◌≡◌, ◌<◌, ◌++◌, ◌∷◌, [], set, length, IfOk, OnOk};
ghost use Rattle.ng_queue.specs.Queue.{IsBelow};
ghost use Rattle.ng_queue.specs.Queues.{list_at};
ghost use Rattle.ng_queue.specs.declared.entry.Entry.TheVariants.{Waiting};

use ng_base::{ItemId, LinkId, Name, NodeId, Packet, Stamp};
use ng_machine::{Body, Door, Item};
use ng_queue::{Hold, NodeQueue, Queues};
use std::alloc::Global;
use std::test::Fail;

// A packet of that number by a hook, as a reader.
fn packet(alloc: Global, id: u64, hook: &[u8]) -> Result<Item, Fail>
    ensures { IfOk result (λ item. item.id.0 ≡ id) }
{
    let hook = Name::read(hook)?;
    let packet = Packet::new(alloc, &[1])?;
    Ok(Item {
        id: ItemId(id),
        to: NodeId(1),
        body: Body::Frame {
            door: Door::Hook(hook),
            link: Some(LinkId(1)),
            packet,
        },
        writer: false,
        tag: None,
        stamp: Stamp(0),
    })
}

// A step of a join of that number, which is a writer.
fn step(id: u64) -> Result<Item, Fail>
    ensures { IfOk result (λ item. item.id.0 ≡ id) }
{
    let hook = Name::read(b"a")?;
    Ok(Item {
        id: ItemId(id),
        to: NodeId(1),
        body: Body::Join3 {
            hook,
            link: LinkId(1),
        },
        writer: true,
        tag: None,
        stamp: Stamp(0),
    })
}

// Why the head can't be taken, or the number of the item that was taken.
fn refuse(queue: &mut NodeQueue) -> Result<Hold, ItemId>
    ensures { OnOk result (queue.new ≡ queue.old) }
{
    match queue.take() {
        Ok(item) => Err(item.id),
        Err(why) => Ok(why),
    }
}

// Two packets by one hook, a step of a join, and a packet by another hook.
fn four(alloc: Global) -> Result<NodeQueue, Fail> {
    let mut queue = NodeQueue::new(alloc)?;
    queue.reserve(alloc, 4)?;
    queue.push(packet(alloc, 1, b"a")?);
    queue.push(packet(alloc, 2, b"a")?);
    queue.push(step(3)?);
    queue.push(packet(alloc, 4, b"b")?);
    Ok(queue)
}

#[test]
fn items_are_taken_in_order(rt: HostRuntime) -> Result<(), Fail> {
    let mut queue = four(rt.alloc())?;
    let first = queue.take()?;
    assert_eq!(rt; first.id, ItemId(1));
    assert_eq!(rt; refuse(&mut queue)?, Hold::SameHook(ItemId(1)));
    queue.done(first.id);
    let second = queue.take()?;
    assert_eq!(rt; second.id, ItemId(2));
    assert_eq!(rt; refuse(&mut queue)?, Hold::ReadersIn(1));
    queue.done(second.id);
    let writer = queue.take()?;
    assert_eq!(rt; writer.id, ItemId(3));
    assert_eq!(rt; refuse(&mut queue)?, Hold::WriterIn(ItemId(3)));
    queue.back(writer);
    let again = queue.take()?;
    assert_eq!(rt; again.id, ItemId(3));
    queue.done(again.id);
    let last = queue.take()?;
    assert_eq!(rt; last.id, ItemId(4));
    assert_eq!(rt; refuse(&mut queue)?, Hold::Empty);
    Ok(())
}

// Room for one item more, and then the item.
fn add(queues: &mut Queues, at: usize, item: Item) -> Result<(), Fail>
    requires there { at < length queues.old.lists }
    requires above { IsBelow item.id (list_at queues.old.lists at) }
    requires low { item.id.0 < 18446744073709551615 }
    ensures { OnOk result (queues.new.lists ≡ set queues.old.lists at (list_at queues.old.lists at ++ Waiting item ∷ [])) }
{
    queues.widen(at)?;
    queues.push(at, item);
    Ok(())
}

// Of two queues, the least of the heads that can be taken.
#[test]
fn the_least_is_next(rt: HostRuntime) -> Result<(), Fail> {
    let alloc = rt.alloc();
    let mut queues = Queues::new(alloc, 3)?;
    assert_eq!(rt; queues.least(), None);
    add(&mut queues, 2, packet(alloc, 1, b"a")?)?;
    add(&mut queues, 1, step(2)?)?;
    add(&mut queues, 2, packet(alloc, 3, b"a")?)?;
    assert_eq!(rt; queues.least(), Some(2));
    let Some(at) = queues.least() else {
        return Ok(());
    };
    let first = queues.take(at);
    assert_eq!(rt; first.id, ItemId(1));
    assert_eq!(rt; queues.least(), Some(1));
    queues.done(at, first.id);
    assert_eq!(rt; queues.least(), Some(1));
    Ok(())
}
