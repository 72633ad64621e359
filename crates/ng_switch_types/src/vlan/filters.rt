// The filters of a vlan node.
ghost use Rattle.std.specs.Prelude.{◌≡◌, ◌≤◌, ◌++◌, [], true, false, flat_map, is_some, IfOk, OnOk, OnErr, MatchOption, None};
ghost use Rattle.ng_plan.specs.lookup.Filters.{without_number};
ghost use Rattle.ng_machine.specs.kinds.Vlan.{filter_bytes, filter_of_hook, filter_of_number, filters_bytes, put_filter, without_filters_of};
ghost use Rattle.ng_switch_types.specs.vlan.Filters.{IsFree, IsInOrder};

use ng_base::{Bytes, Name, NoMemory, Sequence};
use ng_machine::VlanWay;
use ng_message::{put_name, put_u16, put_u32};
use ng_plan::lookup::{Filters as PlanFilters, NameMap};
use std::alloc::Global;
use std::marker::Model;

/// The filters of a vlan node, in order of their numbers, which are at most 4,095, and each of its own hook. One is found
/// by its number or its hook in a time of the logarithm of how many there are.
///
/// A contract sees them as a list.
#[derive(Drop)]
pub struct Filters {
    list: Vec<VlanWay>,
    numbers: NameMap<u16>,
}

impl Model for Filters {
    ghost use Rattle.std.specs.Prelude.{List};
    ghost use Rattle.ng_machine.specs.declared.plan.VlanWay.{VlanWay};
    ghost use Rattle.ng_switch_types.specs.vlan.Filters.{AreKept};

    ghost Value = { List VlanWay };

    ghost view = { λ f. f.list.items };

    ghost invariant = { λ f. AreKept f.list.items f.numbers };
}

/// The place for a filter, where no other has its number.
fn free_place(filters: &[VlanWay], filter: &VlanWay) -> Option<usize>
    requires { IsInOrder 0 filters.now }
    ensures { MatchOption result
        (is_some (filter_of_number filter.now.vlan filters.now) ≡ true)
        (λ place. IsFree filter.now filters.now place) }
{
    match filters.binary_search_by_key(&filter.vlan, |other| other.vlan) {
        Ok(_) => None,
        Err(place) => Some(place),
    }
}

/// Takes the filter of a number out.
fn take_out(filters: &mut Vec<VlanWay>, number: u16)
    requires { IsInOrder 0 filters.old.items }
    ensures { filters.new.items ≡ without_number number filters.old.items }
{
    if let Ok(place) = filters.binary_search_by_key(&number, |filter| filter.vlan) {
        let _filter = filters.remove(place);
    }
}

fn append_filter(out: &mut Vec<u8>, filter: &VlanWay) -> Result<(), NoMemory>
    ensures { OnOk result (out.new.items ≡ out.old.items ++ filter_bytes filter.now) }
{
    put_name(out, Some(&filter.hook))?;
    put_u16(out, filter.vlan)?;
    out.push(filter.pcp)?;
    out.push(filter.cfi)?;
    Ok(())
}

fn append_filters(out: &mut Vec<u8>, filters: &[VlanWay]) -> Result<(), NoMemory>
    ensures { OnOk result (out.new.items ≡ out.old.items ++ flat_map filter_bytes filters.now) }
{
    for filter in filters {
        append_filter(out, filter)?;
    }
    Ok(())
}

impl Filters {
    /// No filters. It takes no memory.
    pub fn new(alloc: Global) -> Filters
        ensures { result ≡ [] }
    {
        Filters {
            list: Vec::new(alloc),
            numbers: NameMap::new(alloc),
        }
    }

    /// Whether a hook has a filter.
    pub fn has_hook(&self, hook: &Name) -> bool
        ensures { result ≡ is_some (filter_of_hook hook.now self.now) }
    {
        self.numbers.get(hook).is_some()
    }

    /// Whether another filter has this one's number.
    pub fn has_number_of(&self, filter: &VlanWay) -> bool
        ensures { result ≡ is_some (filter_of_number filter.now.vlan self.now) }
    {
        match free_place(&self.list, filter) {
            Some(_) => false,
            None => true,
        }
    }

    /// Adds a filter in its place, by its number, which no other has. Its hook has none yet.
    ///
    /// # Errors
    /// `NoMemory` where memory ran out, and for nothing else; the filters are then as before.
    pub fn add(&mut self, filter: VlanWay) -> Result<(), NoMemory>
        requires few { filter.vlan ≤ 4095 }
        requires fresh { is_some (filter_of_number filter.vlan self.old) ≡ false }
        requires alone { is_some (filter_of_hook filter.hook self.old) ≡ false }
        ensures ok { OnOk result (self.new ≡ put_filter filter self.old) }
        ensures err { OnErr result (self.new ≡ self.old) }
    {
        let Some(place) = free_place(&self.list, &filter) else {
            unreachable!()
        };
        self.numbers.reserve()?;
        self.list.insert(place, filter)?;
        self.numbers.put(filter.hook, filter.vlan);
        Ok(())
    }

    /// Takes the filter of a hook out.
    pub fn cut(&mut self, hook: &Name)
        ensures { self.new ≡ without_filters_of hook.now self.old }
    {
        if let Some(number) = self.numbers.get(hook) {
            take_out(&mut self.list, number);
            self.numbers.remove(hook);
        }
    }

    /// A copy of the filters, as a plan holds them. It is a copy of memory.
    ///
    /// # Errors
    /// `NoMemory` where memory ran out, and for nothing else.
    pub fn copy(&self, alloc: Global) -> Result<PlanFilters, NoMemory>
        ensures { IfOk result (λ filters. filters ≡ self.now) }
    {
        let list = Sequence::from_vec(Vec::from_slice(alloc, &self.list)?);
        Ok(PlanFilters::with_numbers(list, self.numbers.again(alloc)?))
    }

    /// The filters as `gettable` is answered: how many, and each by its hook, number, priority and drop indicator.
    ///
    /// # Errors
    /// `NoMemory` where memory ran out, and for nothing else.
    #[tactic(auto, using(crate::proofs::vlan::InOrder::few))]
    pub fn bytes(&self, alloc: Global) -> Result<Bytes, NoMemory>
        ensures { IfOk result (λ bytes. bytes ≡ filters_bytes self.now) }
    {
        let mut out = Vec::new(alloc);
        put_u32(&mut out, self.list.len() as u32)?;
        append_filters(&mut out, &self.list)?;
        Ok(Bytes(out))
    }
}
