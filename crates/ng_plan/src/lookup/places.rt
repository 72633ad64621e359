// The places of entries in their list, under their names.
ghost use Rattle.std.specs.Prelude.{◌≡◌, IfOk, List, None, OnErr, OnOk, ℕ};
ghost use Rattle.ng_plan.specs.lookup.ByName.{CutsPlace};
ghost use Rattle.ng_plan.specs.lookup.NameMap.{IsSame, PutsUnder, under};

use crate::lookup::name_map::NameMap;
use crate::lookup::order::Order;
use ng_base::{Name, NoMemory};
use std::alloc::Global;
use std::marker::Model;

/// The places of entries in their list, under their names. A name leads to a number, and the number to the place that it
/// has in their order. So a place is taken out without a step over the others: the numbers behind it move up, as memory.
///
/// A contract sees the place under each name, and for how many more names there is memory.
#[derive(Drop)]
pub struct Places {
    numbers: NameMap<usize>,
    order: Order,
}

impl Model for Places {
    ghost use Rattle.std.specs.Prelude.{ℕ};
    ghost use Rattle.ng_plan.specs.lookup.NameMap.{Map};
    ghost use Rattle.ng_plan.specs.lookup.Places.{AreGiven, placed};

    ghost Value = { Map ℕ };

    ghost view = { λ p. placed p.numbers p.order.standing };

    ghost invariant = { λ p. AreGiven p.numbers p.order.next };
}

impl Places {
    /// No places. It takes no memory.
    pub fn new(alloc: Global) -> Places
        ensures { (name : List ℕ) → under result name ≡ None }
    {
        Places {
            numbers: NameMap::new(alloc),
            order: Order::new(alloc),
        }
    }

    /// The place under a name.
    pub fn get(&self, name: &Name) -> Option<usize>
        ensures { result ≡ under self.now name.now }
    {
        match self.numbers.get(name) {
            Some(number) => Some(self.order.place_of(number)),
            None => None,
        }
    }

    /// Puts a place under a name, where there is none yet.
    ///
    /// # Errors
    /// `NoMemory` where memory ran out, or where places were given 2^64 - 1 numbers, so that none is left; under each name
    /// stands then what stood there.
    pub fn put(&mut self, name: Name, place: usize) -> Result<(), NoMemory>
        requires { under self.old name ≡ None }
        ensures ok { OnOk result (PutsUnder self.old name place self.new) }
        ensures err { OnErr result (IsSame self.old self.new) }
    {
        self.numbers.reserve()?;
        let number = self.order.number_of(place)?;
        self.numbers.put(name, number);
        Ok(())
    }

    /// Takes the place of a name out. Those behind it go one down, as the entries do where that at the place is taken out.
    pub fn cut(&mut self, name: &Name, place: usize)
        ensures { CutsPlace self.old name.now place self.new }
    {
        self.numbers.remove(name);
        self.order.remove(place);
    }

    /// A copy.
    ///
    /// # Errors
    /// `NoMemory` where memory ran out, and for nothing else.
    pub fn again(&self, alloc: Global) -> Result<Places, NoMemory>
        ensures { IfOk result (IsSame self.now) }
    {
        Ok(Places {
            numbers: self.numbers.again(alloc)?,
            order: self.order.again(alloc)?,
        })
    }
}
