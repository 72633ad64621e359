// A list whose entries are found by a number.
ghost use Rattle.std.specs.Prelude.{◌≡◌, ◌==◌, find, IsTrue};
ghost use Rattle.std.specs.Option.{option_copied};
ghost use Rattle.ng_plan.specs.lookup.Table.{IsAscending};

use crate::lookup::key::Key;
use ng_base::Sequence;
use std::marker::Model;

/// Entries that are found by their numbers: in a time of the logarithm of how many there are where they stand in
/// order of their numbers, as a node keeps them, and one by one else. A contract sees the entries in their order.
#[derive(Drop)]
pub struct Table<T: Key> {
    entries: Sequence<T>,
    ascends: bool,
}

impl<T: Key> Model for Table<T> {
    ghost use Rattle.std.specs.Prelude.{List, IsTrue};
    ghost use Rattle.ng_plan.specs.lookup.Table.{IsAscending};

    ghost Value = { List T };

    ghost view = { λ t. t.entries };

    ghost invariant = { λ t. IsTrue t.ascends → IsAscending T.key_of t.entries };
}

/// Whether each entry has a greater number than the one before it.
fn ascends<T: Key>(entries: &[T]) -> bool
    ensures { IsTrue result → IsAscending T.key_of entries.now }
{
    if entries.is_empty() {
        return true;
    }
    let mut last = entries[0].key();
    for place in 1..entries.len() {
        let key = entries[place].key();
        if last >= key {
            return false;
        }
        last = key;
    }
    true
}

/// The entry of this number among entries in order of their numbers.
fn search<T: Key>(entries: &[T], key: u64) -> Option<&T>
    requires { IsAscending T.key_of entries.now }
    ensures { option_copied result ≡ find (λ entry. T.key_of entry == key) entries.now }
{
    match entries.binary_search_by_key(&key, |entry| entry.key()) {
        Ok(place) => Some(&entries[place]),
        Err(_) => None,
    }
}

impl<T: Key> Table<T> {
    /// A table of these entries.
    pub fn new(entries: Sequence<T>) -> Table<T>
        ensures { result ≡ entries }
    {
        let ascends = ascends(entries.as_slice());
        Table { entries, ascends }
    }

    /// A table of entries that stand in order of their numbers. None of them is looked at.
    pub fn ascending(entries: Sequence<T>) -> Table<T>
        requires { IsAscending T.key_of entries }
        ensures { result ≡ entries }
    {
        Table {
            entries,
            ascends: true,
        }
    }

    /// The entries, in their order.
    pub fn as_slice(&self) -> &[T]
        ensures { result.now ≡ self.now }
    {
        self.entries.as_slice()
    }

    /// The first entry of this number.
    pub fn find(&self, key: u64) -> Option<&T>
        ensures { option_copied result ≡ find (λ entry. T.key_of entry == key) self.now }
    {
        let entries = self.entries.as_slice();
        if self.ascends {
            search(entries, key)
        } else {
            entries.iter().find(|entry| entry.key() == key)
        }
    }
}
