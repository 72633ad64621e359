// Names in order of their bytes, each with a number.
ghost use Rattle.std.specs.Prelude.{◌≡◌, ◌<◌, ◌≤◌, [], false, length, IfOk, MatchOption, OnOk};
ghost use Rattle.std.specs.List.{insert};
ghost use Rattle.ng_base.specs.NameIndex.{HasOneMore, IsInOrder, IsNumbered};
ghost use Rattle.ng_base.specs.Names.{has_name};

use crate::{Name, NoMemory};
use std::alloc::Global;
use std::marker::Model;

/// Names in order of their bytes, each with a number, so that a name and its number are found in a time of the logarithm of
/// how many there are. The same name may stand there more than once.
///
/// A contract sees the names, their numbers, and for how many more there is memory.
#[derive(Debug, Drop)]
pub struct NameIndex {
    sorted: Vec<Name>,
    numbers: Vec<u64>,
}

impl Model for NameIndex {
    ghost use Rattle.std.specs.Prelude.{◌≡◌, ◌-◌, length, min, vec_len, vec_capacity};
    ghost use Rattle.ng_base.specs.NameIndex.{Index, IsInOrder};

    ghost Value = { Index };

    ghost view = { λ n. record {
      names = n.sorted.items;
      numbers = n.numbers.items;
      room = min (vec_capacity n.sorted - vec_len n.sorted) (vec_capacity n.numbers - vec_len n.numbers);
    } };

    ghost invariant = { λ n. IsInOrder n.sorted.items × (length n.sorted.items ≡ length n.numbers.items) };
}

impl NameIndex {
    /// No names. It takes no memory.
    pub fn new(alloc: Global) -> NameIndex
        ensures names { result.names ≡ [] }
        ensures numbers { result.numbers ≡ [] }
    {
        NameIndex {
            sorted: Vec::new(alloc),
            numbers: Vec::new(alloc),
        }
    }

    /// Whether the name stands among them.
    pub fn has(&self, name: &Name) -> bool
        ensures { result ≡ has_name self.now.names name.now }
    {
        self.sorted.binary_search(name).is_ok()
    }

    /// Where the name may be put, so that the names stay in order.
    fn place(&self, name: &Name) -> usize
        ensures in_range { result ≤ length self.now.names }
        ensures in_order { IsInOrder (insert self.now.names result name.now) }
    {
        match self.sorted.binary_search(name) {
            Ok(at) => at,
            Err(at) => at,
        }
    }

    /// Takes the memory for one more name.
    ///
    /// # Errors
    /// `NoMemory` where memory ran out, and for nothing else.
    pub fn reserve(&mut self) -> Result<(), NoMemory>
        ensures room { OnOk result (0 < self.new.room) }
        ensures names { self.new.names ≡ self.old.names }
        ensures numbers { self.new.numbers ≡ self.old.numbers }
    {
        self.sorted.reserve(1)?;
        self.numbers.reserve(1)?;
        Ok(())
    }

    /// Adds a name with a number. There has to be memory for it, and it cannot fail.
    pub fn add(&mut self, name: Name, number: u64)
        requires { 0 < self.old.room }
        ensures added { HasOneMore self.old name number self.new }
        ensures numbered { IsNumbered self.new }
    {
        let at = self.place(&name);
        let Ok(()) = self.sorted.insert(at, name) else {
            unreachable!()
        };
        let Ok(()) = self.numbers.insert(at, number) else {
            unreachable!()
        };
    }

    /// Takes the name out once, and answers the number that it had there: `None` where the name is not there.
    pub fn remove_once(&mut self, name: &Name) -> Option<u64>
        ensures removed { MatchOption result
            ((has_name self.old.names name.now ≡ false) × (self.new ≡ self.old))
            (λ number. HasOneMore self.new name.now number self.old) }
        ensures numbered { IsNumbered self.new }
    {
        let Ok(at) = self.sorted.binary_search(name) else {
            return None;
        };
        let _name = self.sorted.remove(at);
        Some(self.numbers.remove(at))
    }

    /// A copy of the names and their numbers.
    ///
    /// # Errors
    /// `NoMemory` where memory ran out, and for nothing else.
    pub fn again(&self, alloc: Global) -> Result<NameIndex, NoMemory>
        ensures names { IfOk result (λ index. index.names ≡ self.now.names) }
        ensures numbers { IfOk result (λ index. index.numbers ≡ self.now.numbers) }
    {
        Ok(NameIndex {
            sorted: Vec::from_slice(alloc, &self.sorted)?,
            numbers: Vec::from_slice(alloc, &self.numbers)?,
        })
    }
}
