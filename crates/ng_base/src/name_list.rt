// Names in the order in which they were added, with an index.
ghost use Rattle.std.specs.Prelude.{◌≡◌, ◌<◌, ℕ, true, false, [], ◌∷◌, ◌++◌, length, IfOk, OnOk};
ghost use Rattle.ng_base.specs.Names.{has_name, without_name};

use crate::name_index::NameIndex;
use crate::{Name, NoMemory};
use std::alloc::Global;
use std::marker::Model;

/// Names in the order in which they were added. Each has a number above those before it, and an index of the names has
/// these numbers too. So whether a name is there, and where, is found in a time of the logarithm of how many there are, and
/// a name is taken out without a step over the others: those behind it move up, as memory.
///
/// A contract sees the names, and for how many more there is memory. What has to add a name with no error takes the memory
/// first, by `reserve`.
#[derive(Debug, Drop)]
pub struct NameList {
    items: Vec<Name>,
    numbers: Vec<u64>,
    next: u64,
    index: NameIndex,
}

impl Model for NameList {
    ghost use Rattle.std.specs.Prelude.{◌-◌, ◌^◌, min, vec_len, vec_capacity};
    ghost use Rattle.ng_base.specs.NameList.{IsIndexed, NamesAndRoom};

    ghost Value = { NamesAndRoom };

    ghost view = { λ n. record {
      names = n.items.items;
      room = min
          (min (vec_capacity n.items - vec_len n.items) (vec_capacity n.numbers - vec_len n.numbers))
          (min n.index.room (2 ^ 64 - 1 - n.next));
    } };

    ghost invariant = { λ n. IsIndexed n.items.items n.numbers.items n.next n.index };
}

impl NameList {
    /// No names. It takes no memory.
    pub fn new(alloc: Global) -> NameList
        ensures { result.names ≡ [] }
    {
        NameList {
            items: Vec::new(alloc),
            numbers: Vec::new(alloc),
            next: 0,
            index: NameIndex::new(alloc),
        }
    }

    /// The names, to be looked at.
    pub fn as_slice(&self) -> &[Name]
        ensures { result.now ≡ self.now.names }
    {
        self.items.as_slice()
    }

    /// Whether the name stands among them.
    pub fn has(&self, name: &Name) -> bool
        ensures { result ≡ has_name self.now.names name.now }
    {
        self.index.has(name)
    }

    /// Takes the memory for one more name.
    ///
    /// # Errors
    /// `NoMemory` where memory ran out, or where 2^64 - 1 names were added, so that no number is left.
    pub fn reserve(&mut self) -> Result<(), NoMemory>
        ensures room { OnOk result (0 < self.new.room) }
        ensures same { self.new.names ≡ self.old.names }
    {
        if self.next == u64::MAX {
            return Err(NoMemory);
        }
        self.items.reserve(1)?;
        self.numbers.reserve(1)?;
        self.index.reserve()
    }

    /// Adds a name at the end. There has to be memory for it, and it cannot fail.
    pub fn add(&mut self, name: Name)
        requires { 0 < self.old.room }
        ensures { self.new.names ≡ self.old.names ++ name ∷ [] }
    {
        self.items.push_reserved(name);
        self.numbers.push_reserved(self.next);
        self.index.add(name, self.next);
        self.next += 1;
    }

    /// Takes the name out once, and answers whether it was there.
    fn remove_once(&mut self, name: &Name) -> bool
        ensures found { result ≡ has_name self.old.names name.now }
        ensures others { without_name self.new.names name.now ≡ without_name self.old.names name.now }
        ensures fewer { result ≡ true → length self.new.names < length self.old.names }
        ensures same { result ≡ false → self.new.names ≡ self.old.names }
    {
        let Some(number) = self.index.remove_once(name) else {
            return false;
        };
        let Ok(at) = self.numbers.binary_search(&number) else {
            unreachable!()
        };
        let _name = self.items.remove(at);
        let _number = self.numbers.remove(at);
        true
    }

    /// Takes the name out, wherever it stands.
    pub fn remove(&mut self, name: &Name)
        ensures { self.new.names ≡ without_name self.old.names name.now }
    {
        while self.remove_once(name) {}
    }

    /// A copy of the names.
    ///
    /// # Errors
    /// `NoMemory` where memory ran out, and for nothing else.
    pub fn again(&self, alloc: Global) -> Result<NameList, NoMemory>
        ensures { IfOk result (λ list. list.names ≡ self.now.names) }
    {
        Ok(NameList {
            items: Vec::from_slice(alloc, &self.items)?,
            numbers: Vec::from_slice(alloc, &self.numbers)?,
            next: self.next,
            index: self.index.again(alloc)?,
        })
    }
}
