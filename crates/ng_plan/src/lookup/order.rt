// Numbers in order, one for each place.
ghost use Rattle.std.specs.Prelude.{◌≡◌, ◌<◌, ◌+◌, [], length, IfOk, OnOk, ℕ};
ghost use Rattle.ng_plan.specs.lookup.NameMap.{down_above};
ghost use Rattle.ng_plan.specs.lookup.Order.{KeepsPlaces, place_in};

use ng_base::NoMemory;
use std::alloc::Global;
use std::marker::Model;

/// Numbers in order, one for each place, each above those before it. A number leads to its place at once where nothing
/// before it was taken out, and else by halves. Where one is taken out the others keep theirs: those behind it move up, as
/// memory.
///
/// A contract sees the numbers and the next that is given.
#[derive(Drop)]
pub struct Order {
    standing: Vec<usize>,
    next: usize,
}

impl Model for Order {
    ghost use Rattle.ng_plan.specs.lookup.Order.{AreRising, Numbers};

    ghost Value = { Numbers };

    ghost view = { λ o. record { standing = o.standing.items; next = o.next } };

    ghost invariant = { λ o. AreRising o.standing.items o.next };
}

impl Order {
    /// No numbers. It takes no memory.
    pub fn new(alloc: Global) -> Order
        ensures { result.standing ≡ [] }
    {
        Order {
            standing: Vec::new(alloc),
            next: 0,
        }
    }

    /// The place of a number.
    pub fn place_of(&self, number: usize) -> usize
        ensures { result ≡ place_in self.now.standing number }
    {
        if number < self.standing.len() && self.standing[number] == number {
            return number;
        }
        match self.standing.binary_search(&number) {
            Ok(at) => at,
            Err(at) => at,
        }
    }

    /// Gives the place behind the others a number.
    fn push(&mut self) -> Result<(), NoMemory>
        ensures keeps { KeepsPlaces self.old self.new }
        ensures more { OnOk result (length self.new.standing ≡ length self.old.standing + 1) }
    {
        if self.next == usize::MAX {
            return Err(NoMemory);
        }
        self.standing.push(self.next)?;
        self.next += 1;
        Ok(())
    }

    /// The number of a place. Where it has none yet, it and those before it are given theirs.
    ///
    /// # Errors
    /// `NoMemory` where memory ran out, or where 2^64 - 1 numbers were given, so that none is left.
    pub fn number_of(&mut self, place: usize) -> Result<usize, NoMemory>
        ensures keeps { KeepsPlaces self.old self.new }
        ensures given { IfOk result (λ number. number < self.new.next) }
        ensures place { IfOk result (λ number. place_in self.new.standing number ≡ place) }
    {
        while self.standing.len() <= place {
            self.push()?;
        }
        Ok(self.standing[place])
    }

    /// Takes the number of a place out, if it has one.
    pub fn remove(&mut self, place: usize)
        ensures places { (number : ℕ) → place_in self.new.standing number ≡ down_above place (place_in self.old.standing number) }
        ensures next { self.new.next ≡ self.old.next }
    {
        if place < self.standing.len() {
            let _number = self.standing.remove(place);
        }
    }

    /// A copy.
    ///
    /// # Errors
    /// `NoMemory` where memory ran out, and for nothing else.
    pub fn again(&self, alloc: Global) -> Result<Order, NoMemory>
        ensures { IfOk result (λ order. order ≡ self.now) }
    {
        Ok(Order {
            standing: Vec::from_slice(alloc, &self.standing)?,
            next: self.next,
        })
    }
}
