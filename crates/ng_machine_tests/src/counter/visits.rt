// What seats do with a value of any type.
ghost use Rattle.std.specs.Prelude.{◌≡◌};
ghost use Rattle.ng_turn.specs.Words.{IsPass, desk_of, seat_of};

use ng_turn::{Desked, Pass, Turn};
use std::sync::Wait;
use std::thread;
use std::thread::Threads;

/// Takes the value and puts it back as it was.
pub fn visit<T: Desked + Drop, R: Wait>(rt: &R, turn: &Turn<T>, pass: Pass<T>) -> Pass<T>
    requires { IsPass T.blank turn.now pass }
    ensures turn { IsPass T.blank turn.now result }
    ensures seat { seat_of result ≡ seat_of pass }
    ensures desk { desk_of T.blank result ≡ desk_of T.blank pass }
{
    let held = turn.take(rt, pass);
    turn.put(rt, held)
}

/// Two seats visit, each in a thread of its own. The value may be of any type whose values may go
/// from thread to thread.
pub fn visit_together<T: Desked + Drop + Send, R: Threads + Wait + Sync>(
    rt: &R,
    turn: &Turn<T>,
    first: Pass<T>,
    second: Pass<T>,
) -> (Pass<T>, Pass<T>)
    requires first { IsPass T.blank turn.now first }
    requires second { IsPass T.blank turn.now second }
    ensures turn { IsPass T.blank turn.now result.0 × IsPass T.blank turn.now result.1 }
    ensures seats { (seat_of result.0 ≡ seat_of first) × (seat_of result.1 ≡ seat_of second) }
    ensures desks { (desk_of T.blank result.0 ≡ desk_of T.blank first) × (desk_of T.blank result.1 ≡ desk_of T.blank second) }
{
    thread::join(
        rt,
        move || -> Pass<T>
            requires { IsPass T.blank turn.now first }
            ensures { IsPass T.blank turn.entry.now result × (seat_of result ≡ seat_of first)
                × (desk_of T.blank result ≡ desk_of T.blank first) }
        { visit(rt, turn, first) },
        move || -> Pass<T>
            requires { IsPass T.blank turn.now second }
            ensures { IsPass T.blank turn.entry.now result × (seat_of result ≡ seat_of second)
                × (desk_of T.blank result ≡ desk_of T.blank second) }
        { visit(rt, turn, second) },
    )
}
