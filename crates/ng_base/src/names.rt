// Lists of names.
ghost use Rattle.std.specs.Prelude.{◌≡◌, [], ◌∷◌, ◌++◌, IfOk, OnOk, OnErr};
ghost use Rattle.ng_base.specs.Names.{has_name, without_name};

use crate::{Name, NameList, NoMemory};
use std::alloc::Global;
use std::marker::Model;

/// Names in order, such as the hooks of a node in the order in which they were made. Whether one is there is found in a time
/// of the logarithm of how many there are, and none of them is gone over to take one out.
///
/// A contract sees them as the list of their bytes.
#[derive(Debug, Drop)]
pub struct Names {
    list: NameList,
}

impl Model for Names {
    ghost use Rattle.std.specs.Prelude.{ℕ, List};

    ghost Value = { List (List ℕ) };

    ghost view = { λ n. n.list.names };
}

impl Names {
    /// No names. It takes no memory.
    pub fn new(alloc: Global) -> Names
        ensures { result ≡ [] }
    {
        Names {
            list: NameList::new(alloc),
        }
    }

    /// The names of a list, in its memory.
    pub fn from_list(list: NameList) -> Names
        ensures { result ≡ list.names }
    {
        Names { list }
    }

    /// The names, to be looked at.
    pub fn as_slice(&self) -> &[Name]
        ensures { result.now ≡ self.now }
    {
        self.list.as_slice()
    }

    /// Whether the name stands among them.
    pub fn has(&self, name: &Name) -> bool
        ensures { result ≡ has_name self.now name.now }
    {
        self.list.has(name)
    }

    /// Adds a name at the end.
    ///
    /// # Errors
    /// `NoMemory` where memory ran out, or where 2^64 - 1 names were added before; the names are then as before.
    pub fn push(&mut self, name: Name) -> Result<(), NoMemory>
        ensures ok { OnOk result (self.new ≡ self.old ++ name ∷ []) }
        ensures err { OnErr result (self.new ≡ self.old) }
    {
        self.list.reserve()?;
        self.list.add(name);
        Ok(())
    }

    /// A copy of the names.
    ///
    /// # Errors
    /// `NoMemory` where memory ran out, and for nothing else.
    pub fn again(&self, alloc: Global) -> Result<Names, NoMemory>
        ensures { IfOk result (λ names. names ≡ self.now) }
    {
        Ok(Names {
            list: self.list.again(alloc)?,
        })
    }

    /// Takes the name out, wherever it stands.
    pub fn remove(&mut self, name: &Name)
        ensures { self.new ≡ without_name self.old name.now }
    {
        self.list.remove(name);
    }
}
