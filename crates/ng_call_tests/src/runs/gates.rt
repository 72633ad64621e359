// What two workers do at gates that hold an item while another seat works, and at nodes that wait for each other.
ghost use Rattle.ng_core.specs.Stocked.{IsStocked};

use crate::fakes::{ROOM, file, files_of, sink, words_in};
use crate::runs::waiting::{Writes, waiting_nodes};
use ng_base::{ItemId, NodeId};
use ng_outside::{Gate, MemSink, OpenGate};
use ng_plan::node::Node;
use ng_run::ngrun;
use ng_stock::{stock, stock_suffices};
use std::alloc::Global;
use std::sync::atomic::{AtomicBool, Ordering};
use std::sync::{Arc, Wait};
use std::test::Fail;
use std::thread;
use std::thread::Threads;

// A gate looks so often at what it waits for.
const LOOKS: u32 = 10_000_000;

/// Holds one item until another has passed.
#[derive(Drop)]
struct Meeting {
    held: ItemId,
    awaited: ItemId,
    has_passed: AtomicBool,
    was_in_vain: AtomicBool,
}

impl Gate for Meeting {
    fn pass(&self, _node: NodeId, item: ItemId) {
        if item == self.awaited {
            self.has_passed.store(true, Ordering::SeqCst);
        }
        if item != self.held {
            return;
        }
        for _ in 0..LOOKS {
            if self.has_passed.load(Ordering::SeqCst) {
                return;
            }
            thread::yield_now();
        }
        self.was_in_vain.store(true, Ordering::SeqCst);
    }
}

/// Holds one item for a while, and sees whether another passes meanwhile.
#[derive(Drop)]
struct Watch {
    held: ItemId,
    watched: ItemId,
    is_over: AtomicBool,
    came_early: AtomicBool,
}

impl Gate for Watch {
    fn pass(&self, _node: NodeId, item: ItemId) {
        if item == self.watched && !self.is_over.load(Ordering::SeqCst) {
            self.came_early.store(true, Ordering::SeqCst);
        }
        if item == self.held {
            for _ in 0..1000 {
                thread::yield_now();
            }
            self.is_over.store(true, Ordering::SeqCst);
        }
    }
}

// A run of a script by two workers with these blank nodes at this gate: its status and its text.
fn run_with<R: Threads + Wait + Sync, B: Node, G: Gate + Sync>(
    rt: &R,
    alloc: Global,
    script: &[u8],
    boxes: Vec<B>,
    gate: &G,
) -> Result<(u8, MemSink), Fail>
    requires { IsStocked B.state boxes.items }
{
    let words = words_in(alloc, "-w 2 s")?;
    let mut files = files_of(alloc, &[file("s", script)], ROOM, false, 0)?;
    let mut out = sink(alloc, false, 0)?;
    let ended = ngrun(rt, alloc, &words, &mut files, &mut out, boxes, gate);
    Ok((ended.status, out))
}

// The status of such a run with the blank nodes that the program has.
fn run_at<R: Threads + Wait + Sync, G: Gate + Sync>(
    rt: &R,
    alloc: Global,
    script: &[u8],
    gate: &G,
) -> Result<u8, Fail> {
    let boxes = stock(alloc)?;
    stock_suffices();
    let (status, _) = run_with(rt, alloc, script, boxes, gate)?;
    Ok(status)
}

// The last item is worked on while the one before it is held: at another node, and at the same hub by another hook.
const MEETINGS: [&[u8]; 2] = [
    b"mkpeer . hub a x\nmkpeer a hole p p\nmkpeer a hole q q\nwrite a 1\n",
    b"mkpeer . hub a x\nconnect . a b y\nwrite a 1\nwrite b 2\n",
];

#[test]
fn two_seats_are_inside(rt: HostRuntime) -> Result<(), Fail> {
    for script in &MEETINGS {
        let gate = Meeting {
            held: ItemId(5),
            awaited: ItemId(6),
            has_passed: AtomicBool::new(false),
            was_in_vain: AtomicBool::new(false),
        };
        assert_eq!(rt; run_at(&rt, rt.alloc(), script, &gate)?, 0);
        assert!(rt; gate.has_passed.load(Ordering::SeqCst));
        assert!(rt; !gate.was_in_vain.load(Ordering::SeqCst));
    }
    Ok(())
}

#[test]
fn a_writer_is_alone(rt: HostRuntime) -> Result<(), Fail> {
    let gate = Watch {
        held: ItemId(2),
        watched: ItemId(3),
        is_over: AtomicBool::new(false),
        came_early: AtomicBool::new(false),
    };
    let script = b"mkpeer . hub a x\nwrite a 1\nmsg a setpersistent\n";
    assert_eq!(rt; run_at(&rt, rt.alloc(), script, &gate)?, 0);
    assert!(rt; gate.is_over.load(Ordering::SeqCst));
    assert!(rt; !gate.came_early.load(Ordering::SeqCst));
    Ok(())
}

// A packet comes by a hub to two one2manys, at which it is a writer. Neither has a hook to send it on by.
const WRITES: &[u8] =
    b"mkpeer . hub a x\nmkpeer a one2many p one\nmkpeer a one2many q one\nwrite a 1\n";

const WRITES_END: &[u8] = b"summary: fed 4 of 4, applied 6, data refused 2
dropped: node gone 0, hook gone 0, budget 0
lost: no peer 0, node gone 0, full 0, spool 0
graph: nodes 4, hooks 6
";

#[test]
fn two_writes_are_inside(rt: HostRuntime) -> Result<(), Fail> {
    let alloc = rt.alloc();
    let writes = Arc::new(alloc, Writes::new())?;
    let boxes = stock(alloc)?;
    stock_suffices();
    let boxes = waiting_nodes(alloc, boxes, &writes)?;
    let (status, out) = run_with(&rt, alloc, WRITES, boxes, &OpenGate)?;
    assert_eq!(rt; status, 0);
    assert!(rt; out.bytes().ends_with(WRITES_END));
    assert_eq!(rt; writes.begun.load(Ordering::SeqCst), 2);
    assert_eq!(rt; writes.in_vain.load(Ordering::SeqCst), 0);
    Ok(())
}
