// ng_vlan(4): parts the frames of VLANs by their tags, and tags them on the way back.
ghost use Rattle.std.specs.Prelude.{◌≡◌, ◌≢◌, ◌≤◌, false, true, is_some, IfOk, IfNone, OnOk, OnErr};
ghost use Rattle.std.specs.Arc.{arc_value};
ghost use Rattle.byteorder.specs.Endian.{little_bytes};
ghost use Rattle.ng_base.specs.Name.{is_name};
ghost use Rattle.ng_base.specs.Names.{has_name};
ghost use Rattle.ng_machine.specs.kinds.Vlan.{add_filter, add_refusals, delete_filter, filter_of_hook, filter_of_number, is_taken, vlan_message};
ghost use Rattle.ng_machine.specs.Words.{first_refusal};
ghost use Rattle.ng_machine.specs.State.{blank_of};
ghost use Rattle.ng_switch_types.specs.vlan.Filters.{is_invalid};
ghost use Rattle.ng_switch_types.specs.vlan.State.{vlan_state};

use crate::vlan::filters::Filters;
use crate::vlan::messages::{
    ADD_FILTER, DELETE_FILTER, FILTER_LEN, GET_TABLE, GET_TAG_TYPE, SET_TAG_TYPE, filter_in,
    hook_in,
};
use ng_base::{Bytes, Errno, Kind, Name, NoMemory};
use ng_frame::{CUSTOMER_TAG, SERVICE_TAG};
use ng_machine::{Body, Counts, Farewell, Outcome, VlanWay};
use ng_message::{Msg, NAME_LEN, put_u32, u32_at};
use ng_plan::lookup::Hooks;
use ng_plan::node::{HookList, Node};
use ng_plan::{Plan, VlanPlan, Way, answers, downstream, eval, fails, nomatch, nothing};
use std::alloc::Global;
use std::marker::Model;
use std::sync::Arc;

/// The greatest number of a VLAN that a filter can have.
const MAX_VLAN: u16 = 4_095;

/// The highest priority.
const MAX_PRIORITY: u8 = 7;

/// A node that sends a tagged frame by `downstream` out of the hook of its VLAN's filter, without the tag, and all else
/// out of `nomatch`; what comes by a filter's hook goes out of `downstream` with the filter's tag. Its messages are
/// `addfilter`, `delfilter` and `gettable` of ng_vlan(4), and `settagtype` and `gettagtype` for the type of the tags,
/// 0x8100 or 0x88a8.
///
/// A contract sees its hooks, the type of its tags and its filters. Each filter's hook is there.
#[derive(Drop)]
pub struct VlanNode {
    hooks: HookList,
    kind: u16,
    filters: Filters,
}

impl Model for VlanNode {
    ghost use Rattle.ng_machine.specs.Sound.{KeepsByHooks};
    ghost use Rattle.ng_machine.specs.State.{VlanState};
    ghost use Rattle.ng_switch_types.specs.vlan.State.{Tagger};

    ghost Value = { Tagger };

    ghost view = { λ n. record { hooks = n.hooks.names; kept = record { kind = n.kind; filters = n.filters } } };

    ghost invariant = { λ n. KeepsByHooks (VlanState (record { kind = n.kind; filters = n.filters })) n.hooks.names };
}

/// Whether addfilter takes such values of no filter.
fn is_invalid(filter: &VlanWay) -> bool
    requires { is_name filter.now.hook ≡ true }
    ensures { result ≡ is_invalid filter.now }
{
    let VlanWay {
        vlan,
        hook,
        pcp,
        cfi,
    } = *filter;
    vlan > MAX_VLAN || pcp > MAX_PRIORITY || cfi > 1 || downstream() == hook || nomatch() == hook
}

impl VlanNode {
    /// Its plan, to be shared by those who work on packets.
    fn shared_plan(&self, alloc: Global) -> Result<Arc<Plan>, NoMemory>
        ensures { IfOk result (λ plan.
            arc_value plan ≡ Way.Vlan self.now.hooks self.now.kept.kind self.now.kept.filters) }
    {
        let vlan = VlanPlan {
            hooks: Hooks::new(self.hooks.names(alloc)?),
            kind: self.kind,
            filters: self.filters.copy(alloc)?,
        };
        Plan::of_vlan(alloc, vlan)
    }

    /// Why a filter isn't added, if it isn't.
    #[tactic(auto, using(crate::proofs::vlan::Refusals::add_invalid, crate::proofs::vlan::Refusals::add_missing, crate::proofs::vlan::Refusals::add_taken, crate::proofs::vlan::Refusals::add_free))]
    fn refusal(&self, filter: &VlanWay) -> Option<Errno>
        requires { is_name filter.now.hook ≡ true }
        ensures answer { result ≡ first_refusal (add_refusals self.now.kept self.now.hooks filter.now) }
        ensures few { IfNone result (filter.now.vlan ≤ 4095) }
        ensures there { IfNone result (has_name self.now.hooks filter.now.hook ≡ true) }
        ensures fresh { IfNone result (is_some (filter_of_number filter.now.vlan self.now.kept.filters) ≡ false) }
        ensures alone { IfNone result (is_some (filter_of_hook filter.now.hook self.now.kept.filters) ≡ false) }
    {
        if is_invalid(filter) {
            Some(Errno::INVAL)
        } else if !self.hooks.has(&filter.hook) {
            Some(Errno::NOENT)
        } else if self.is_taken(filter) {
            Some(Errno::EXIST)
        } else {
            None
        }
    }

    /// Whether the filter's hook has a filter, or another filter has its number.
    fn is_taken(&self, filter: &VlanWay) -> bool
        ensures taken { result ≡ is_taken filter.now self.now.kept.filters }
        ensures fresh { result ≡ false → is_some (filter_of_number filter.now.vlan self.now.kept.filters) ≡ false }
        ensures alone { result ≡ false → is_some (filter_of_hook filter.now.hook self.now.kept.filters) ≡ false }
    {
        self.filters.has_hook(&filter.hook) || self.filters.has_number_of(filter)
    }

    /// Adds a filter, or says why not.
    fn add(&mut self, alloc: Global, filter: VlanWay) -> Result<Outcome, NoMemory>
        requires { is_name filter.hook ≡ true }
        ensures hooks { self.new.hooks ≡ self.old.hooks }
        ensures after { OnOk result (self.new.kept ≡ (add_filter self.old.kept self.old.hooks filter).after) }
        ensures outcome { IfOk result (λ outcome. outcome ≡ (add_filter self.old.kept self.old.hooks filter).outcome) }
        ensures err { OnErr result (self.new.kept ≡ self.old.kept) }
    {
        if let Some(errno) = self.refusal(&filter) {
            return Ok(fails(alloc, errno));
        }
        self.filters.add(filter)?;
        Ok(nothing(alloc))
    }

    /// Works on `addfilter`.
    #[tactic(auto, using(crate::proofs::vlan::Refusals::add_unnamed))]
    fn add_filter(&mut self, alloc: Global, args: &[u8]) -> Result<Outcome, NoMemory>
        ensures hooks { self.new.hooks ≡ self.old.hooks }
        ensures after { OnOk result (self.new.kept ≡ (vlan_message self.old.kept self.old.hooks 1 args.now).after) }
        ensures outcome { IfOk result (λ outcome. outcome ≡ (vlan_message self.old.kept self.old.hooks 1 args.now).outcome) }
        ensures err { OnErr result (self.new.kept ≡ self.old.kept) }
    {
        if args.len() != FILTER_LEN {
            return Ok(fails(alloc, Errno::INVAL));
        }
        match filter_in(args) {
            Some(filter) => self.add(alloc, filter),
            None => Ok(fails(alloc, Errno::INVAL)),
        }
    }

    /// Takes the filter of a hook out, or says why not. It takes no memory.
    #[tactic(auto, using(crate::proofs::vlan::Refusals::delete_absent, crate::proofs::vlan::Refusals::delete_there, crate::proofs::vlan::Hooks::sifted))]
    fn delete(&mut self, alloc: Global, hook: Name) -> Outcome
        requires { is_name hook ≡ true }
        ensures hooks { self.new.hooks ≡ self.old.hooks }
        ensures after { self.new.kept ≡ (delete_filter self.old.kept hook).after }
        ensures outcome { result ≡ (delete_filter self.old.kept hook).outcome }
    {
        if !self.filters.has_hook(&hook) {
            return fails(alloc, Errno::NOENT);
        }
        self.filters.cut(&hook);
        nothing(alloc)
    }

    /// Works on `delfilter`. It takes no memory.
    #[tactic(auto, using(crate::proofs::vlan::Refusals::delete_unnamed, crate::proofs::vlan::Refusals::was_read, crate::proofs::vlan::Refusals::was_not_read))]
    fn delete_filter(&mut self, alloc: Global, args: &[u8]) -> Outcome
        ensures hooks { self.new.hooks ≡ self.old.hooks }
        ensures after { self.new.kept ≡ (vlan_message self.old.kept self.old.hooks 2 args.now).after }
        ensures outcome { result ≡ (vlan_message self.old.kept self.old.hooks 2 args.now).outcome }
    {
        if args.len() != NAME_LEN {
            return fails(alloc, Errno::INVAL);
        }
        match hook_in(args) {
            Some(hook) => self.delete(alloc, hook),
            None => fails(alloc, Errno::INVAL),
        }
    }

    /// Works on `settagtype`. It takes no memory.
    fn set_tag_type(&mut self, alloc: Global, args: &[u8]) -> Outcome
        ensures hooks { self.new.hooks ≡ self.old.hooks }
        ensures after { self.new.kept ≡ (vlan_message self.old.kept self.old.hooks 4 args.now).after }
        ensures outcome { result ≡ (vlan_message self.old.kept self.old.hooks 4 args.now).outcome }
    {
        if args.len() != 4 {
            return fails(alloc, Errno::INVAL);
        }
        let kind = u32_at(args, 0);
        if kind == u32::from(CUSTOMER_TAG) {
            self.kind = CUSTOMER_TAG;
            nothing(alloc)
        } else if kind == u32::from(SERVICE_TAG) {
            self.kind = SERVICE_TAG;
            nothing(alloc)
        } else {
            fails(alloc, Errno::INVAL)
        }
    }

    /// The type of the tags, as `gettagtype` is answered.
    fn tag_type(&self, alloc: Global) -> Result<Bytes, NoMemory>
        ensures { IfOk result (λ bytes. bytes ≡ little_bytes 4 self.now.kept.kind) }
    {
        let mut out = Vec::new(alloc);
        put_u32(&mut out, u32::from(self.kind))?;
        Ok(Bytes(out))
    }

    /// What a message that sets nothing is answered.
    fn reply(&self, alloc: Global, number: u32, args: &[u8]) -> Result<Outcome, NoMemory>
        requires add { number ≢ 1 }
        requires delete { number ≢ 2 }
        requires set { number ≢ 4 }
        ensures { IfOk result (λ outcome. outcome ≡ (vlan_message self.now.kept self.now.hooks number args.now).outcome) }
    {
        if !args.is_empty() {
            return Ok(fails(alloc, Errno::INVAL));
        }
        match number {
            GET_TABLE => Ok(answers(alloc, self.filters.bytes(alloc)?)),
            GET_TAG_TYPE => Ok(answers(alloc, self.tag_type(alloc)?)),
            _ => Ok(fails(alloc, Errno::INVAL)),
        }
    }

    /// Works on a message.
    fn obey(&mut self, alloc: Global, number: u32, args: &[u8]) -> Result<Outcome, NoMemory>
        ensures hooks { self.new.hooks ≡ self.old.hooks }
        ensures after { OnOk result (self.new.kept ≡ (vlan_message self.old.kept self.old.hooks number args.now).after) }
        ensures outcome { IfOk result (λ outcome. outcome ≡ (vlan_message self.old.kept self.old.hooks number args.now).outcome) }
        ensures err { OnErr result (self.new.kept ≡ self.old.kept) }
    {
        match number {
            ADD_FILTER => self.add_filter(alloc, args),
            DELETE_FILTER => Ok(self.delete_filter(alloc, args)),
            SET_TAG_TYPE => Ok(self.set_tag_type(alloc, args)),
            _ => self.reply(alloc, number, args),
        }
    }
}

impl Node for VlanNode {
    ghost state = { λ n. vlan_state n };

    fn kind(&self) -> Kind {
        Kind::Vlan
    }

    fn may(&self, _hook: &Name) -> Result<(), Errno> {
        Ok(())
    }

    #[tactic(auto, using(crate::proofs::vlan::Hooks::made, crate::proofs::vlan::Hooks::undone))]
    fn newhook(&mut self, _alloc: Global, hook: &Name) -> Result<(), NoMemory> {
        self.hooks.reserve()?;
        self.hooks.add(*hook);
        Ok(())
    }

    #[tactic(auto, using(crate::proofs::vlan::Hooks::cut))]
    fn cut(&mut self, hook: &Name) {
        self.hooks.cut(hook);
        self.filters.cut(hook);
    }

    fn lasting(&self) -> bool {
        false
    }

    fn plan(&self, alloc: Global) -> Result<Option<Arc<Plan>>, NoMemory> {
        Ok(Some(self.shared_plan(alloc)?))
    }

    fn absorb(&mut self, _counts: &Counts) {}

    fn answer(&self, alloc: Global, msg: &Msg) -> Result<Outcome, NoMemory> {
        self.reply(alloc, msg.header.cmd, &msg.args.0)
    }

    fn write(&mut self, alloc: Global, body: &Body) -> Result<Outcome, NoMemory> {
        match body {
            Body::Frame { door, packet, .. } => {
                let plan = self.shared_plan(alloc)?;
                eval(alloc, &plan, door, packet)
            }
            Body::Msg(msg) => self.obey(alloc, msg.header.cmd, &msg.args.0),
            _ => Ok(nothing(alloc)),
        }
    }

    fn farewell(&self) -> Farewell {
        Farewell::Plain
    }
}

/// A vlan node without hooks and filters, whose tags are customer tags.
///
/// # Errors
/// `NoMemory` where memory ran out, and for nothing else.
pub fn blank_vlan(alloc: Global) -> Result<VlanNode, NoMemory>
    ensures { IfOk result (λ node. vlan_state node ≡ blank_of Kind.Vlan) }
{
    Ok(VlanNode {
        hooks: HookList::new(alloc),
        kind: CUSTOMER_TAG,
        filters: Filters::new(alloc),
    })
}
