// The filters of an etf node.
ghost use Rattle.std.specs.Prelude.{◌≡◌, ◌<◌, ◌++◌, [], true, false, not, length, nat_le, is_some, flat_map, IfOk, OnOk, OnErr, MatchOption};
ghost use Rattle.std.specs.List.{filter};
ghost use Rattle.std.specs.Str.{bytes_eq};
ghost use Rattle.ng_machine.specs.kinds.Etf.{etf_filter_bytes, etf_filter_of, etf_filters_bytes, most_filters, put_etf};
ghost use Rattle.ng_sorted.specs.Order.{IsInOrder};
ghost use Rattle.ng_filter_types.specs.Filters.{IsFree, number_of};

use ng_base::{Bytes, Name, NoMemory, Sequence};
use ng_machine::EtfWay;
use ng_message::{put_name, put_u16, put_u32};
use std::alloc::Global;
use std::marker::Model;

/// The most filters of an etf node.
const MAX_FILTERS: usize = 4_096;

/// The filters of an etf node, in order of their ethertypes. A contract sees them as a list.
#[derive(Drop)]
pub struct Filters {
    list: Vec<EtfWay>,
}

impl Model for Filters {
    ghost use Rattle.std.specs.Prelude.{List};
    ghost use Rattle.ng_machine.specs.declared.plan.EtfWay.{EtfWay};
    ghost use Rattle.ng_filter_types.specs.Filters.{AreFilters};

    ghost Value = { List EtfWay };

    ghost view = { λ f. f.list.items };

    ghost invariant = { λ f. AreFilters f.list.items };
}

/// The place for a filter of an ethertype, where there is none. It takes a time of the logarithm of their number.
fn free_place(filters: &[EtfWay], ethertype: u16) -> Option<usize>
    requires { IsInOrder number_of filters.now }
    ensures { MatchOption result
        (is_some (etf_filter_of ethertype filters.now) ≡ true)
        (λ place. IsFree filters.now ethertype place) }
{
    match filters.binary_search_by_key(&ethertype, |filter| filter.ethertype) {
        Ok(_) => None,
        Err(place) => Some(place),
    }
}

/// Leaves out the filters of a hook.
fn leave_out(filters: &mut Vec<EtfWay>, hook: &Name)
    ensures { filters.new.items ≡ filter (λ f. not (bytes_eq f.hook hook.now)) filters.old.items }
{
    filters.retain(|filter| filter.hook != *hook);
}

fn put_filter(out: &mut Vec<u8>, filter: &EtfWay) -> Result<(), NoMemory>
    ensures { OnOk result (out.new.items ≡ out.old.items ++ etf_filter_bytes filter.now) }
{
    put_name(out, Some(&filter.hook))?;
    put_u16(out, filter.ethertype)?;
    Ok(())
}

fn put_filters(out: &mut Vec<u8>, filters: &[EtfWay]) -> Result<(), NoMemory>
    ensures { OnOk result (out.new.items ≡ out.old.items ++ flat_map etf_filter_bytes filters.now) }
{
    for filter in filters {
        put_filter(out, filter)?;
    }
    Ok(())
}

impl Filters {
    /// No filters. It takes no memory.
    pub fn new(alloc: Global) -> Filters
        ensures { result ≡ [] }
    {
        Filters {
            list: Vec::new(alloc),
        }
    }

    /// Whether there is a filter of an ethertype.
    pub fn has(&self, ethertype: u16) -> bool
        ensures { result ≡ is_some (etf_filter_of ethertype self.now) }
    {
        match free_place(&self.list, ethertype) {
            Some(_) => false,
            None => true,
        }
    }

    /// Whether there is no room for one more.
    pub fn is_full(&self) -> bool
        ensures { result ≡ nat_le most_filters (length self.now) }
    {
        self.list.len() >= MAX_FILTERS
    }

    /// Adds a filter in its place, by its ethertype, which no other has.
    ///
    /// # Errors
    /// `NoMemory` where memory ran out, and for nothing else; the filters are then as before.
    #[tactic(auto, using(crate::proofs::FilterLists::inserted, crate::proofs::FilterLists::put_free))]
    pub fn add(&mut self, filter: EtfWay) -> Result<(), NoMemory>
        requires fresh { is_some (etf_filter_of filter.ethertype self.old) ≡ false }
        requires room { nat_le most_filters (length self.old) ≡ false }
        ensures ok { OnOk result (self.new ≡ put_etf filter self.old) }
        ensures err { OnErr result (self.new ≡ self.old) }
    {
        let Some(place) = free_place(&self.list, filter.ethertype) else {
            unreachable!()
        };
        self.list.insert(place, filter)?;
        Ok(())
    }

    /// Takes the filters of a hook out.
    #[tactic(auto, using(crate::proofs::FilterLists::sifted))]
    pub fn cut(&mut self, hook: &Name)
        ensures { self.new ≡ filter (λ f. not (bytes_eq f.hook hook.now)) self.old }
    {
        leave_out(&mut self.list, hook);
    }

    /// A copy of the filters, as a plan holds them.
    ///
    /// # Errors
    /// `NoMemory` where memory ran out, and for nothing else.
    pub fn copy(&self, alloc: Global) -> Result<Sequence<EtfWay>, NoMemory>
        ensures { IfOk result (λ filters. filters ≡ self.now) }
    {
        Ok(Sequence::from_vec(Vec::from_slice(alloc, &self.list)?))
    }

    /// The filters as `gettable` is answered: how many, and each by its hook and ethertype.
    ///
    /// # Errors
    /// `NoMemory` where memory ran out, and for nothing else.
    #[tactic(auto, using(crate::proofs::FilterLists::few))]
    pub fn bytes(&self, alloc: Global) -> Result<Bytes, NoMemory>
        ensures { IfOk result (λ bytes. bytes ≡ etf_filters_bytes self.now) }
    {
        let mut out = Vec::new(alloc);
        put_u32(&mut out, self.list.len() as u32)?;
        put_filters(&mut out, &self.list)?;
        Ok(Bytes(out))
    }
}
