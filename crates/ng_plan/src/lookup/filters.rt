// The filters of a vlan node.
ghost use Rattle.std.specs.Prelude.{◌≡◌, IfOk};
ghost use Rattle.std.specs.Option.{option_copied};
ghost use Rattle.ng_plan.specs.lookup.Filters.{AreApart, AreNumbersOf, IsByNumber};
ghost use Rattle.ng_machine.specs.kinds.Vlan.{filter_of_hook, filter_of_number};

use crate::lookup::by_name::{find_named, places_of};
use crate::lookup::name_map::NameMap;
use crate::lookup::places::Places;
use crate::lookup::table::Table;
use ng_base::{Name, NoMemory, Sequence};
use ng_machine::VlanWay;
use std::alloc::Global;
use std::marker::Model;

/// What leads from a hook to its filter.
#[derive(Drop)]
pub enum ByHook {
    /// The number of each hook's filter, where the filters stand in order of their numbers and no two are of one hook.
    Numbers(NameMap<u16>),
    /// The place of each hook's filter.
    Places(Places),
}

/// The filters of a vlan node, found by their numbers and by their hooks. A contract sees them in their order.
#[derive(Drop)]
pub struct Filters {
    table: Table<VlanWay>,
    by_hook: ByHook,
}

impl Model for Filters {
    ghost use Rattle.std.specs.Prelude.{List};
    ghost use Rattle.ng_machine.specs.declared.plan.VlanWay.{VlanWay};
    ghost use Rattle.ng_plan.specs.lookup.Filters.{LeadsTo};

    ghost Value = { List VlanWay };

    ghost view = { λ f. f.table };

    ghost invariant = { λ f. LeadsTo f.table f.by_hook };
}

impl Filters {
    /// These filters, whatever their order.
    ///
    /// # Errors
    /// `NoMemory` where memory ran out, and for nothing else.
    pub fn new(alloc: Global, filters: Sequence<VlanWay>) -> Result<Filters, NoMemory>
        ensures { IfOk result (λ made. made ≡ filters) }
    {
        let table = Table::new(filters);
        let by_hook = ByHook::Places(places_of(alloc, table.as_slice())?);
        Ok(Filters { table, by_hook })
    }

    /// These filters, which stand in order of their numbers and no two of which are of one hook, with the number of each
    /// hook's filter. None of them is looked at.
    pub fn with_numbers(filters: Sequence<VlanWay>, numbers: NameMap<u16>) -> Filters
        requires ascending { IsByNumber filters }
        requires numbers { AreNumbersOf filters numbers }
        requires apart { AreApart filters }
        ensures { result ≡ filters }
    {
        Filters {
            table: Table::ascending(filters),
            by_hook: ByHook::Numbers(numbers),
        }
    }

    /// The filters, in their order.
    pub fn as_slice(&self) -> &[VlanWay]
        ensures { result.now ≡ self.now }
    {
        self.table.as_slice()
    }

    /// The filter of a number.
    pub fn of_number(&self, number: u16) -> Option<&VlanWay>
        ensures { option_copied result ≡ filter_of_number number self.now }
    {
        self.table.find(u64::from(number))
    }

    /// The filter of a hook.
    pub fn of_hook(&self, hook: &Name) -> Option<&VlanWay>
        ensures { option_copied result ≡ filter_of_hook hook.now self.now }
    {
        match &self.by_hook {
            ByHook::Numbers(numbers) => match numbers.get(hook) {
                Some(number) => self.of_number(number),
                None => None,
            },
            ByHook::Places(places) => find_named(self.table.as_slice(), places, hook),
        }
    }
}
