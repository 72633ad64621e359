// The rule of the place, as the queue of one place asks for it: what a view is, and what each kind
// of step does to views. All of it exists in contracts alone.
use crate::Desked;
use crossbeam_queue::protocol::{Join, Lesson, Outcome, Protocol, Split};
use std::collections::LinkedList;

/// What a ticket of the place knows.
pub enum View<T, D> {
    /// No value was laid down yet.
    Opening,
    /// The desk of each seat from `next` on is as in `value`. No pass was made for these seats yet.
    Stock { value: T, next: u64 },
    /// The desk of each of these seats, which wait.
    Waits { desks: LinkedList<(u64, D)> },
    /// The value is out with these seats, which found it so.
    Holds { found: T, seats: LinkedList<u64> },
}

/// The rule: at most one ticket has the value, and each desk is what its own ticket knows.
pub struct InTurn;

impl<T: Desked> Protocol<T, View<T, T::Desk>> for InTurn {
    ghost use Rattle.ng_turn.specs.Rule.{IsRuled};
    ghost use Rattle.ng_turn.specs.declared.rule.View.TheVariants.{Opening};

    ghost holds = { IsRuled T.desk };

    ghost first = { Opening };
}

/// The first push, by `new`.
pub struct Opens;

impl<T: Desked> Outcome<T, View<T, T::Desk>> for Opens {
    ghost use Rattle.std.specs.Prelude.{◌≡◌};
    ghost use Rattle.ng_turn.specs.declared.rule.View.TheVariants.{Stock};

    ghost then = { λ before value after. after ≡ Stock value 0 };
}

impl<T: Desked> Lesson<T, View<T, T::Desk>> for Opens {
    ghost use Rattle.ng_turn.specs.Rule.{IsBare};

    ghost fact = { IsBare };
}

/// Each later push, by `put`.
pub struct Puts;

impl<T: Desked> Outcome<T, View<T, T::Desk>> for Puts {
    ghost use Rattle.std.specs.Prelude.{◌≡◌};
    ghost use Rattle.ng_turn.specs.Rule.{after_push};

    ghost then = { λ before value after. after ≡ after_push T.desk value before };
}

impl<T: Desked> Lesson<T, View<T, T::Desk>> for Puts {
    ghost use Rattle.ng_turn.specs.Rule.{IsBare};

    ghost fact = { IsBare };
}

/// A pop, by `take` and `end`.
pub struct Takes;

impl<T: Desked> Outcome<T, View<T, T::Desk>> for Takes {
    ghost use Rattle.std.specs.Prelude.{◌≡◌};
    ghost use Rattle.ng_turn.specs.Rule.{AgreesWith, after_pop};

    ghost then = { λ before value after. AgreesWith T.desk value before × (after ≡ after_pop value before) };
}

/// A split, by `new`: a ticket for the next seat.
pub struct Deals;

impl<T: Desked> Split<View<T, T::Desk>> for Deals {
    ghost use Rattle.ng_turn.specs.Rule.{stock_left, dealt_view};

    ghost left = { stock_left };

    ghost right = { dealt_view T.desk };
}

/// A join, by `end`: what both tickets know.
pub struct Gathers;

impl<T: Desked> Join<View<T, T::Desk>> for Gathers {
    ghost use Rattle.ng_turn.specs.Rule.{joined_view, spent_view};

    ghost both = { joined_view };

    ghost spent = { spent_view };
}
