// What a bpf node keeps of its hooks.
ghost use Rattle.std.specs.Prelude.{◌≡◌, ◌≤◌, [], false, length, map, IfOk, OnErr, OnOk};
ghost use Rattle.std.specs.List.{find};
ghost use Rattle.std.specs.Option.{option_copied};
ghost use Rattle.ng_filter_types.specs.bpf.Filters.{hooks_of};
ghost use Rattle.ng_machine.specs.kinds.Bpf.{at_filter, bpf_with_hook, bpf_without_hook, count_filter, has_filter, is_of_hook};
ghost use Rattle.ng_machine.specs.Counters.{after_counts, raise_at, zeros};

use crate::bpf::filter::Filter;
use ng_base::{Name, NoMemory, Sequence};
use ng_machine::BpfWay;
use ng_plan::lookup::{NameTable, Places, find_named};
use std::alloc::Global;
use std::marker::Model;

/// The hooks of a bpf node with their programs and counters, in the order in which they were made, and the place of each
/// under its name.
///
/// A hook is found by halves, so a packet is counted in a time of the logarithm of how many there are.
#[derive(Drop)]
pub struct Filters {
    filters: Vec<Filter>,
    places: Places,
}

impl Model for Filters {
    ghost use Rattle.std.specs.Prelude.{List};
    ghost use Rattle.ng_machine.specs.kinds.Bpf as machine;
    ghost use Rattle.ng_filter_types.specs.bpf.Filters.{ArePlaced};

    ghost Value = { List machine.Filter };

    ghost view = { λ s. s.filters.items };

    ghost invariant = { λ s. ArePlaced s.filters.items s.places };
}

/// A copy of the programs and the targets of hooks. Each program has one holder more.
fn ways_of(alloc: Global, filters: &[Filter]) -> Result<Vec<BpfWay>, NoMemory>
    ensures { IfOk result (λ ways. ways.items ≡ map (λ f. f.way) filters.now) }
{
    let mut ways = Vec::with_capacity(alloc, filters.len())?;
    for filter in filters {
        ways.push(filter.way()?)?;
    }
    Ok(ways)
}

impl Filters {
    /// No hooks. It takes no memory.
    pub fn new(alloc: Global) -> Filters
        ensures { result ≡ [] }
    {
        Filters {
            filters: Vec::new(alloc),
            places: Places::new(alloc),
        }
    }

    /// What there is of a hook.
    pub fn find(&self, hook: &Name) -> Option<&Filter>
        ensures { option_copied result ≡ find (is_of_hook hook.now) self.now }
    {
        find_named(&self.filters, &self.places, hook)
    }

    /// Whether there is a hook of this name.
    pub fn has(&self, hook: &Name) -> bool
        ensures { result ≡ has_filter self.now hook.now }
    {
        self.places.get(hook).is_some()
    }

    /// What a plan holds of the hooks, with their places.
    ///
    /// # Errors
    /// `NoMemory` where memory ran out, and for nothing else.
    pub fn ways(&self, alloc: Global) -> Result<NameTable<BpfWay>, NoMemory>
        ensures { IfOk result (λ ways. ways ≡ map (λ f. f.way) self.now) }
    {
        let ways = ways_of(alloc, &self.filters)?;
        let places = self.places.again(alloc)?;
        Ok(NameTable::with_places(Sequence::from_vec(ways), places))
    }

    /// Adds a hook of a new name at the end, as a new hook is.
    ///
    /// # Errors
    /// `NoMemory` where memory ran out, or where 2^64 - 1 hooks were added, so that no number is left for its place; the
    /// hooks are then as before.
    pub fn add(&mut self, alloc: Global, hook: &Name) -> Result<(), NoMemory>
        requires { has_filter self.old hook.now ≡ false }
        ensures ok { OnOk result (self.new ≡ bpf_with_hook self.old hook.now) }
        ensures err { OnErr result (self.new ≡ self.old) }
    {
        let filter = Filter::new(alloc, hook)?;
        self.filters.reserve(1)?;
        self.places.put(*hook, self.filters.len())?;
        self.filters.push_reserved(filter);
        Ok(())
    }

    /// Takes a hook away, with its program and its counters.
    pub fn cut(&mut self, hook: &Name)
        ensures { self.new ≡ bpf_without_hook self.old hook.now }
    {
        if let Some(place) = self.places.get(hook) {
            self.places.cut(hook, place);
            let _filter = self.filters.remove(place);
        }
    }

    /// Sets the program and the targets of the hook that they are of. Where there is no such hook, nothing changes.
    pub fn set_way(&mut self, way: BpfWay)
        requires { length way.program ≤ 512 }
        ensures set { self.new ≡ at_filter way.hook (λ f. record f { way = way }) self.old }
        ensures hooks { hooks_of self.new ≡ hooks_of self.old }
    {
        if let Some(place) = self.places.get(&way.hook) {
            self.filters[place].set_way(way);
        }
    }

    /// Adds what was counted once to a counter of a hook.
    fn count(&mut self, hook: &Name, number: u64, amount: u64)
        ensures counted { self.new ≡ count_filter self.old (hook.now, number, amount) }
        ensures hooks { hooks_of self.new ≡ hooks_of self.old }
    {
        if let Some(place) = self.places.get(hook) {
            self.filters[place].count(number, amount);
        }
    }

    /// Adds what was counted. What is of no hook and no counter is passed over.
    pub fn absorb(&mut self, counts: &[(Name, u64, u64)])
        ensures counted { self.new ≡ after_counts count_filter self.old counts.now }
        ensures hooks { hooks_of self.new ≡ hooks_of self.old }
    {
        for count in counts {
            self.count(&count.0, count.1, count.2);
        }
    }

    /// Sets the counters of a hook to 0. Where there is no such hook, nothing changes.
    pub fn clear(&mut self, hook: &Name)
        ensures cleared { self.new ≡ at_filter hook.now (λ f. record f { counters = zeros 6 }) self.old }
        ensures hooks { hooks_of self.new ≡ hooks_of self.old }
    {
        if let Some(place) = self.places.get(hook) {
            self.filters[place].clear();
        }
    }
}
