// The one place through which the value passes.
ghost use Rattle.std.specs.Prelude.{◌≡◌, ◌<◌, IfOk, IfErr};
ghost use Rattle.crossbeam_queue.specs.Passes.{view, IsPassOf, IsSamePass};
ghost use Rattle.ng_turn.specs.Rule.{AgreesWith, IsOfSeats, after_pop};

use crate::pass::Ticket;
use crate::rule::{Deals, Gathers, InTurn, Opens, Puts, Takes, View};
use crate::{Backoff, Desked, Held, Pass};
use crossbeam_queue::RuledArrayQueue;
use std::alloc::Global;
use std::snapshot::Snapshot;
use std::sync::Wait;

pub(crate) type Place<T> = RuledArrayQueue<T, View<T, <T as Desked>::Desk>, InTurn>;

/// A value that seats take by turns, shared among threads by reference.
///
/// It is a queue with one place. The value lies in it, or one seat has the value.
#[derive(Drop)]
pub struct Turn<T: Desked> {
    place: Place<T>,
    seats: u32,
    ghost some_seat: { 0 < seats },
}

impl<T: Desked + Drop> Turn<T> {
    ghost use Rattle.ng_turn.specs.Words.{AreAllPasses, Begins, EachPass, IsHeld, IsPass, KeepsOthers, desk_of, found_value, holder, seat_of, value_of};

    /// A turn at the value, and a pass for each seat, in order from 0. There is at least one seat.
    ///
    /// `Err` is out of memory, and gives the value back.
    pub fn new<R: Wait>(
        rt: &R,
        alloc: Global,
        value: T,
        seats: u32,
    ) -> Result<(Turn<T>, Vec<Pass<T>>), T>
        requires { 0 < seats }
        ensures made { IfOk result (λ made. Begins T.blank T.desk value seats made.0 made.1.items) }
        ensures refused { IfErr result (λ back. back ≡ value) }
    {
        let Ok(mut passes) = Vec::with_capacity(alloc, seats as usize) else {
            return Err(value);
        };
        let Ok((place, mut stock)) = Place::ruled(alloc, 1) else {
            return Err(value);
        };
        let Ok(()) = place.push_as::<Opens, R>(rt, &mut stock, value) else {
            unreachable!()
        };
        for seat in 0..seats {
            let ticket = place.another::<Deals>(&mut stock);
            passes.push_reserved(Pass { ticket, seat });
        }
        Ok((Turn { place, seats }, passes))
    }

    /// Waits for the value and takes it, by a pass of this turn. Takes no memory.
    ///
    /// If it returns, the desk of the seat is what the pass says, whatever other seats did meanwhile.
    pub fn take<R: Wait>(&self, rt: &R, pass: Pass<T>) -> Held<T>
        requires { IsPass T.blank self.now pass }
        ensures turn { IsHeld self.now result }
        ensures seat { holder result ≡ seat_of pass }
        ensures value { found_value result ≡ value_of result }
        ensures desk { T.desk (value_of result) (seat_of pass) ≡ desk_of T.blank pass }
    {
        let Pass { mut ticket, seat } = pass;
        let value = wait_and_pop(rt, &self.place, &mut ticket);
        let found = Snapshot::of(&value);
        Held {
            ticket,
            seat,
            value,
            found,
        }
    }

    /// Puts the value back, which was taken from this turn. Every other seat's desk has to be as `take`
    /// found it. The pass that comes back is of the same seat, with the desk as the seat has left it.
    ///
    /// The place is empty while a seat has the value, so there is always room. Takes no memory.
    pub fn put<R: Wait>(&self, rt: &R, held: Held<T>) -> Pass<T>
        requires turn { IsHeld self.now held }
        requires others { KeepsOthers T.desk held }
        ensures turn { IsPass T.blank self.now result }
        ensures seat { seat_of result ≡ holder held }
        ensures desk { desk_of T.blank result ≡ T.desk (value_of held) (holder held) }
    {
        let Held {
            mut ticket,
            seat,
            value,
            found: _,
        } = held;
        let Ok(()) = self.place.push_as::<Puts, R>(rt, &mut ticket, value) else {
            unreachable!()
        };
        Pass { ticket, seat }
    }

    /// The value at the end, for the passes of all seats, in order. Each desk is what the pass of its
    /// seat says. Takes no memory.
    pub fn end<R: Wait>(self, rt: &R, mut passes: Vec<Pass<T>>) -> T
        requires { AreAllPasses T.blank self passes.items }
        ensures { EachPass (λ seat pass. T.desk result seat ≡ desk_of T.blank pass) passes.items }
    {
        let Turn { place, seats: _ } = self;
        let Some(
            Pass {
                mut ticket,
                seat: _,
            },
        ) = passes.pop()
        else {
            unreachable!()
        };
        while let Some(pass) = passes.pop() {
            let Pass {
                ticket: other,
                seat: _,
            } = pass;
            place.absorb::<Gathers>(&mut ticket, other);
        }
        wait_and_pop(rt, &place, &mut ticket)
    }
}

// Waits until the place has the value, and takes it out.
fn wait_and_pop<T: Desked + Drop, R: Wait>(rt: &R, place: &Place<T>, ticket: &mut Ticket<T>) -> T
    requires queue { IsPassOf place.now ticket.old }
    requires waits { IsOfSeats (view ticket.old) }
    ensures queue { IsSamePass ticket.old ticket.new }
    ensures view { view ticket.new ≡ after_pop result (view ticket.old) }
    ensures desks { AgreesWith T.desk result (view ticket.old) }
{
    let mut backoff = Backoff::new();
    for _ in rt.forever() {
        if let Some(value) = place.try_pop_as::<Takes>(ticket) {
            return value;
        }
        backoff.pause(rt);
    }
    unreachable!()
}
