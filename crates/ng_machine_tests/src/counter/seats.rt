// What seats do with the counter, in one thread and in several.
ghost use Rattle.std.specs.Prelude.{◌≡◌, ◌+◌, ◌<◌, ◌≤◌, ◌^◌, ℕ, IfErr, IfOk, length, slice_index, vec_len};
ghost use Rattle.std.specs.Thread.{IsSync};
ghost use Rattle.std.specs.Vec.{vec_capacity};
ghost use Rattle.ng_turn.specs.Words.{desk_of, seat_of, seats_of};
ghost use Rattle.ng_machine_tests.specs.counter.Counter.{IsCounted, additions_of, blank_desk, start_of};
ghost use Rattle.ng_machine_tests.specs.counter.Passes.{Added, AreDone, AreIdle, IsOf};

use crate::counter::Counter;
use crate::counter::visits::{visit, visit_together};
use ng_turn::{Pass, Turn};
use std::alloc::{AllocError, Global};
use std::sync::Wait;
use std::thread;
use std::thread::Threads;

// Adds once, in one turn.
fn add_once<R: Wait>(rt: &R, turn: &Turn<Counter>, pass: Pass<Counter>) -> Pass<Counter>
    requires turn { IsOf turn.now pass }
    requires seat { seat_of pass < (desk_of blank_desk pass).seats }
    requires room { (desk_of blank_desk pass).additions + 1 < 2 ^ 64 }
    ensures turn { IsOf turn.now result }
    ensures added { Added pass 1 result }
{
    let seat = pass.seat();
    let mut held = turn.take(rt, pass);
    held.value_mut().add(seat);
    turn.put(rt, held)
}

/// Adds as often as `times` says, each time in a turn of its own.
pub fn add_times<R: Wait>(
    rt: &R,
    turn: &Turn<Counter>,
    mut pass: Pass<Counter>,
    times: u32,
) -> Pass<Counter>
    requires turn { IsOf turn.now pass }
    requires seat { seat_of pass < (desk_of blank_desk pass).seats }
    requires room { (desk_of blank_desk pass).additions + times < 2 ^ 64 }
    ensures turn { IsOf turn.now result }
    ensures added { Added pass times result }
{
    for _ in 0..times {
        pass = add_once(rt, turn, pass);
    }
    pass
}

/// Hands a counter of two seats round: each seat takes it and puts it back, first one after the
/// other and then both in threads of their own. What comes out at the end is the counter as it was.
///
/// `Err` is out of memory, and gives the counter back.
pub fn pass_round<R: Threads + Wait + Sync>(
    rt: &R,
    alloc: Global,
    counter: Counter,
) -> Result<Counter, Counter>
    requires { length (additions_of counter) ≡ 2 }
    ensures same { IfOk result (λ back. (start_of back ≡ start_of counter) × (additions_of back ≡ additions_of counter)) }
    ensures refused { IfErr result (λ back. back ≡ counter) }
{
    let (turn, mut passes) = Turn::new(rt, alloc, counter, 2)?;
    let Some(second) = passes.pop() else {
        unreachable!()
    };
    let Some(first) = passes.pop() else {
        unreachable!()
    };
    let first = visit(rt, &turn, first);
    let second = visit(rt, &turn, second);
    let (first, second) = visit_together(rt, &turn, first, second);
    passes.push_reserved(first);
    passes.push_reserved(second);
    Ok(turn.end(rt, passes))
}

/// Each seat adds once more often than its number says. The seat 0 adds in this thread, and each
/// other seat in a thread of its own.
pub fn spread<R: Threads + Wait + Sync>(
    rt: &R,
    turn: &Turn<Counter>,
    mut passes: Vec<Pass<Counter>>,
) -> Vec<Pass<Counter>>
    requires idle { AreIdle turn.now passes.items }
    requires few { seats_of turn.now ≤ 17 }
    ensures done { AreDone turn.now result.items }
    ensures len { vec_len result ≡ vec_len passes }
    ensures capacity { vec_capacity result ≡ vec_capacity passes }
{
    let Some(last) = passes.pop() else {
        return passes;
    };
    let times = last.seat() + 1;
    if times == 1 {
        passes.push_reserved(add_times(rt, turn, last, times));
        return passes;
    }
    let (last, mut passes) = thread::join(
        rt,
        move || -> Pass<Counter>
            requires { IsOf turn.now last × (times ≡ seat_of last + 1)
                × (desk_of blank_desk last ≡ record { start = 0; seats = seats_of turn.now; additions = 0 })
                × (seat_of last < seats_of turn.now) × (seats_of turn.now ≤ 17) }
            ensures { IsOf turn.entry.now result × Added last times result }
        { add_times(rt, turn, last, times) },
        move || -> Vec<Pass<Counter>>
            requires { IsSync R.row × AreIdle turn.now passes.items × (seats_of turn.now ≤ 17) }
            ensures { AreDone turn.entry.now result.items × (vec_len result ≡ vec_len passes)
                × (vec_capacity result ≡ vec_capacity passes) }
        { spread(rt, turn, passes) },
    );
    passes.push_reserved(last);
    passes
}

/// A counter that began with 0 and to which seat 0 added once, seat 1 twice and so on: seat 0 in this
/// thread, and each of the workers in a thread of its own. `Err` is out of memory.
pub fn counted_by<R: Threads + Wait + Sync>(
    rt: &R,
    alloc: Global,
    workers: u32,
) -> Result<Counter, AllocError>
    requires { workers ≤ 16 }
    ensures { IfOk result (IsCounted (workers + 1)) }
{
    let counter = Counter::new(alloc, 0, workers as usize + 1)?;
    let Ok((turn, passes)) = Turn::new(rt, alloc, counter, workers + 1) else {
        return Err(AllocError);
    };
    let passes = spread(rt, &turn, passes);
    Ok(turn.end(rt, passes))
}

/// Three seats, in three threads, add once, twice and three times. `Err` is out of memory.
pub fn six<R: Threads + Wait + Sync>(rt: &R, alloc: Global) -> Result<u64, AllocError>
    ensures { IfOk result (λ total. total ≡ 6) }
{
    let counter = counted_by(rt, alloc, 2)?;
    Ok(counter.total())
}
