// Entries that are found by their names.
ghost use Rattle.std.specs.Prelude.{◌≡◌, filter, find, IfOk, OnOk, List, ℕ};
ghost use Rattle.std.specs.List.{list_any};
ghost use Rattle.std.specs.Option.{option_copied};
ghost use Rattle.ng_plan.specs.lookup.ByName.{has_the_name, IsIndexed, PutsFirst};

use crate::lookup::places::Places;
use ng_base::{Name, NoMemory, Sequence};
use ng_machine::{BpfWay, BridgeLink, VlanWay};
use std::alloc::Global;
use std::marker::Model;

/// An entry that is found by a name.
pub trait Named {
    /// The name.
    ghost name_of: { Self → List ℕ };

    /// The name.
    fn name(&self) -> Name
        ensures { result ≡ name_of self.now };
}

/// A name by itself.
impl Named for Name {
    ghost name_of = { λ name. name };

    fn name(&self) -> Name {
        *self
    }
}

/// A filter of a vlan node by its hook.
impl Named for VlanWay {
    ghost name_of = { λ filter. filter.hook };

    fn name(&self) -> Name {
        self.hook
    }
}

/// What stands at a hook of a bpf node, by the hook.
impl Named for BpfWay {
    ghost name_of = { λ way. way.hook };

    fn name(&self) -> Name {
        self.hook
    }
}

/// A link of a bridge by its hook.
impl Named for BridgeLink {
    ghost name_of = { λ link. link.hook };

    fn name(&self) -> Name {
        self.hook
    }
}

/// Puts a place under a name, where there is none yet.
fn put_first(places: &mut Places, name: Name, place: usize) -> Result<(), NoMemory>
    ensures { OnOk result (PutsFirst places.old places.new name place) }
{
    if places.get(&name).is_none() {
        places.put(name, place)?;
    }
    Ok(())
}

/// The place of the first entry of each name.
///
/// # Errors
/// `NoMemory` where memory ran out, and for nothing else.
pub fn places_of<T: Named>(alloc: Global, entries: &[T]) -> Result<Places, NoMemory>
    ensures { IfOk result (IsIndexed T.name_of entries.now) }
{
    let mut places = Places::new(alloc);
    for place in 0..entries.len() {
        put_first(&mut places, entries[place].name(), place)?;
    }
    Ok(places)
}

/// The first entry of a name, by the places of entries.
pub fn find_named<'a, T: Named>(entries: &'a [T], places: &Places, name: &Name) -> Option<&'a T>
    requires { IsIndexed T.name_of entries.now places.now }
    ensures { option_copied result ≡ find (has_the_name T.name_of name.now) entries.now }
{
    match places.get(name) {
        Some(place) => Some(&entries[place]),
        None => None,
    }
}

/// Entries that are found by their names, in a time of the logarithm of how many there are. A contract sees the
/// entries in their order.
#[derive(Drop)]
pub struct NameTable<T: Named> {
    entries: Sequence<T>,
    places: Places,
}

impl<T: Named> Model for NameTable<T> {
    ghost use Rattle.std.specs.Prelude.{List};
    ghost use Rattle.ng_plan.specs.lookup.ByName.{IsIndexed};

    ghost Value = { List T };

    ghost view = { λ t. t.entries };

    ghost invariant = { λ t. IsIndexed T.name_of t.entries t.places };
}

impl<T: Named> NameTable<T> {
    /// A table of these entries.
    ///
    /// # Errors
    /// `NoMemory` where memory ran out, and for nothing else.
    pub fn new(alloc: Global, entries: Sequence<T>) -> Result<NameTable<T>, NoMemory>
    where
        T: Drop,
        ensures { IfOk result (λ table. table ≡ entries) }
    {
        let places = places_of(alloc, entries.as_slice())?;
        Ok(NameTable { entries, places })
    }

    /// A table of these entries with the place of the first entry of each name. None of them is looked at.
    pub fn with_places(entries: Sequence<T>, places: Places) -> NameTable<T>
        requires { IsIndexed T.name_of entries places }
        ensures { result ≡ entries }
    {
        NameTable { entries, places }
    }

    /// The entries, in their order.
    pub fn as_slice(&self) -> &[T]
        ensures { result.now ≡ self.now }
    {
        self.entries.as_slice()
    }

    /// The first entry of this name.
    pub fn find(&self, name: &Name) -> Option<&T>
        ensures { option_copied result ≡ find (has_the_name T.name_of name.now) self.now }
    {
        find_named(self.entries.as_slice(), &self.places, name)
    }

    /// Whether there is an entry of this name.
    pub fn has(&self, name: &Name) -> bool
        ensures { result ≡ list_any (has_the_name T.name_of name.now) self.now }
    {
        self.places.get(name).is_some()
    }
}
