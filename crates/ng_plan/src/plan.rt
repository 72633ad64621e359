// A plan, which packets share.
ghost use Rattle.std.specs.Prelude.{◌≡◌, IfOk};
ghost use Rattle.std.specs.Arc.{arc_value};
ghost use Rattle.ng_plan.specs.Form.{way_of_form};
ghost use Rattle.ng_plan.specs.Way.{IsWorkable};

use crate::bpf::BpfPlan;
use crate::bridge_plan::BridgePlan;
use crate::etf::EtfPlan;
use crate::form::Form;
use crate::lookup::{Filters, Hooks, NameTable, Table};
use crate::macset::MacsetPlan;
use crate::operations::Operations;
use crate::patch::PatchPlan;
use crate::vlan::VlanPlan;
use ng_base::NoMemory;
use ng_machine::{BpfWay, Plan as Way};
use std::alloc::Global;
use std::marker::Model;
use std::sync::Arc;

/// What a node's rule for packets reads of its state, without counters: immutable, and shared by the packets that
/// are worked on beside each other. A one2many has none, since its packets change it.
///
/// A contract sees the way that it was made of, which is the machine's plan. A name is looked for by binary search, and
/// a number too, where its list is in the order in which nodes keep it.
#[derive(Drop)]
pub struct Plan {
    form: Form,
}

impl Model for Plan {
    ghost use Rattle.ng_machine.specs.declared.plan.Plan.{Plan};

    ghost Value = { Plan };

    ghost use Rattle.ng_plan.specs.Form.{way_of_form};

    ghost view = { λ p. way_of_form p.form };
}

impl Plan {
    /// The plan of a way. Each operation of a patch has to be one that its setconfig takes: on 1, 2, 4 or 8 bytes, by
    /// a mode from 1 to 11, and no division by 0.
    ///
    /// # Errors
    /// `NoMemory` where memory ran out, and for nothing else.
    pub fn new(alloc: Global, way: Way) -> Result<Plan, NoMemory>
        requires { IsWorkable way }
        ensures { IfOk result (λ plan. plan ≡ way) }
    {
        let form = match way {
            Way::Discard => Form::OfHole,
            Way::Echo => Form::OfEcho,
            Way::Fan { hooks } => Form::OfHub(hooks),
            Way::Ways { kind, hooks } => Form::ByHooks {
                kind,
                hooks: Hooks::new(hooks),
            },
            Way::Vlan {
                hooks,
                kind,
                filters,
            } => Form::OfVlan(VlanPlan {
                hooks: Hooks::new(hooks),
                kind,
                filters: Filters::new(alloc, filters)?,
            }),
            Way::Patch { hooks, ops } => Form::OfPatch(PatchPlan {
                hooks: Hooks::new(hooks),
                ops: Operations::new(ops),
            }),
            Way::Bpf { hooks } => Form::OfBpf(BpfPlan {
                ways: NameTable::new(alloc, hooks)?,
            }),
            Way::Ether { lower } => Form::OfEther(lower),
            Way::Socket => Form::OfSocket,
            Way::Bridge {
                config,
                links,
                hosts,
            } => Form::OfBridge(BridgePlan {
                config,
                links: NameTable::new(alloc, links)?,
                hosts: Table::new(hosts),
            }),
            Way::Etf { hooks, filters } => Form::OfEtf(EtfPlan {
                hooks: Hooks::new(hooks),
                filters: Table::new(filters),
            }),
            Way::Macset { hooks, set } => Form::OfMacset(MacsetPlan {
                hooks: Hooks::new(hooks),
                set: Table::new(set),
            }),
        };
        Ok(Plan { form })
    }

    /// The plan of a way, to be shared by those who work on packets. Its operations are as `new` says.
    ///
    /// # Errors
    /// `NoMemory` where memory ran out, and for nothing else.
    pub fn share(alloc: Global, way: Way) -> Result<Arc<Plan>, NoMemory>
        requires { IsWorkable way }
        ensures { IfOk result (λ plan. arc_value plan ≡ way) }
    {
        let plan = Plan::new(alloc, way)?;
        Ok(Arc::new(alloc, plan)?)
    }

    /// The plan of a vlan, to be shared by those who work on packets. None of its filters is looked at.
    ///
    /// # Errors
    /// `NoMemory` where memory ran out, and for nothing else.
    pub fn of_vlan(alloc: Global, vlan: VlanPlan) -> Result<Arc<Plan>, NoMemory>
        ensures { IfOk result (λ plan. arc_value plan ≡ Way.Vlan vlan.hooks vlan.kind vlan.filters) }
    {
        let form = Form::OfVlan(vlan);
        Ok(Arc::new(alloc, Plan { form })?)
    }

    /// The plan of a bridge, to be shared by those who work on frames. Neither its links nor its hosts are looked at.
    ///
    /// # Errors
    /// `NoMemory` where memory ran out, and for nothing else.
    pub fn of_bridge(alloc: Global, bridge: BridgePlan) -> Result<Arc<Plan>, NoMemory>
        ensures { IfOk result (λ plan. arc_value plan ≡ Way.Bridge bridge.config bridge.links bridge.hosts) }
    {
        let form = Form::OfBridge(bridge);
        Ok(Arc::new(alloc, Plan { form })?)
    }

    /// The plan of a bpf, to be shared by those who work on packets: what stands at its hooks, which is not looked at.
    ///
    /// # Errors
    /// `NoMemory` where memory ran out, and for nothing else.
    pub fn of_bpf(alloc: Global, ways: NameTable<BpfWay>) -> Result<Arc<Plan>, NoMemory>
        ensures { IfOk result (λ plan. arc_value plan ≡ Way.Bpf ways) }
    {
        let form = Form::OfBpf(BpfPlan { ways });
        Ok(Arc::new(alloc, Plan { form })?)
    }

    /// The plan that is made of this.
    pub(crate) fn of(form: Form) -> Plan
        ensures { result ≡ way_of_form form }
    {
        Plan { form }
    }

    /// What it is made of.
    pub(crate) fn form(&self) -> &Form
        ensures { way_of_form result.now ≡ self.now }
    {
        &self.form
    }
}
