// Values that are found by their names.
ghost use Rattle.std.specs.Prelude.{◌≡◌, ◌<◌, None, IfOk, OnOk, ℕ, List};
ghost use Rattle.std.specs.List.{position_from};
ghost use Rattle.std.specs.Str.{bytes_eq};
ghost use Rattle.ng_plan.specs.lookup.NameMap.{IsSame, LeavesOut, PutsUnder, under};

use ng_base::{Name, NoMemory};
use std::alloc::Global;
use std::marker::Model;

/// Values under names, at most one under each. One is found by halves, in a time of the logarithm of how many there are,
/// and among a few one after another. A copy is a copy of memory.
///
/// A contract sees what stands under each name, and for how many more there is memory.
#[derive(Drop)]
pub struct NameMap<V: Copy> {
    names: Vec<Name>,
    values: Vec<V>,
}

impl<V: Copy> Model for NameMap<V> {
    ghost use Rattle.std.specs.Prelude.{◌-◌, min, vec_len, vec_capacity};
    ghost use Rattle.ng_plan.specs.lookup.NameMap.{IsMap, Map};

    ghost Value = { Map V };

    ghost view = { λ m. record {
      names = m.names.items;
      values = m.values.items;
      room = min (vec_capacity m.names - vec_len m.names) (vec_capacity m.values - vec_len m.values);
    } };

    ghost invariant = { λ m. IsMap m.names.items m.values.items };
}

/// How many names are looked at one after another: to test whether two are the same takes a fraction of the time that
/// their order takes.
const FEW: usize = 32;

/// The place of a name among a few.
fn place_among(names: &[Name], name: &Name) -> Option<usize>
    ensures { result ≡ position_from (λ (other : List ℕ). bytes_eq other name.now) 0 names.now }
{
    names.iter().position(|other| *other == *name)
}

impl<V: Copy> NameMap<V> {
    /// No values. It takes no memory.
    pub fn new(alloc: Global) -> NameMap<V>
        ensures { (name : List ℕ) → under result name ≡ None }
    {
        NameMap {
            names: Vec::new(alloc),
            values: Vec::new(alloc),
        }
    }

    /// The value under a name.
    pub fn get(&self, name: &Name) -> Option<V>
        ensures { result ≡ under self.now name.now }
    {
        if self.names.len() <= FEW {
            return match place_among(&self.names, name) {
                Some(at) => Some(self.values[at]),
                None => None,
            };
        }
        match self.names.binary_search(name) {
            Ok(at) => Some(self.values[at]),
            Err(_) => None,
        }
    }

    /// Takes the memory for one more value.
    ///
    /// # Errors
    /// `NoMemory` where memory ran out, and for nothing else.
    pub fn reserve(&mut self) -> Result<(), NoMemory>
        ensures room { OnOk result (0 < self.new.room) }
        ensures same { IsSame self.old self.new }
    {
        self.names.reserve(1)?;
        self.values.reserve(1)?;
        Ok(())
    }

    /// Puts a value under a name, where there is none yet. There has to be memory for it, and it cannot fail.
    pub fn put(&mut self, name: Name, value: V)
        requires room { 0 < self.old.room }
        requires fresh { under self.old name ≡ None }
        ensures { PutsUnder self.old name value self.new }
    {
        let Err(at) = self.names.binary_search(&name) else {
            unreachable!()
        };
        let Ok(()) = self.names.insert(at, name) else {
            unreachable!()
        };
        let Ok(()) = self.values.insert(at, value) else {
            unreachable!()
        };
    }

    /// Takes a name and its value out, if they are there.
    pub fn remove(&mut self, name: &Name)
        ensures { LeavesOut self.old name.now self.new }
    {
        if let Ok(at) = self.names.binary_search(name) {
            let _name = self.names.remove(at);
            let _value = self.values.remove(at);
        }
    }

    /// A copy.
    ///
    /// # Errors
    /// `NoMemory` where memory ran out, and for nothing else.
    pub fn again(&self, alloc: Global) -> Result<NameMap<V>, NoMemory>
        ensures { IfOk result (IsSame self.now) }
    {
        Ok(NameMap {
            names: Vec::from_slice(alloc, &self.names)?,
            values: Vec::from_slice(alloc, &self.values)?,
        })
    }
}
