// ng_etf(4): parts frames by their ethertypes.
ghost use Rattle.std.specs.Prelude.{◌≡◌, ◌≢◌, false, true, length, nat_le, is_some, IfOk, IfNone, OnOk, OnErr};
ghost use Rattle.ng_base.specs.Name.{is_name};
ghost use Rattle.ng_base.specs.Names.{has_name};
ghost use Rattle.ng_machine.specs.Counters.{after_counts};
ghost use Rattle.ng_machine.specs.kinds.Etf.{count_etf, etf_filter_of, etf_message, filter_refusals, most_filters, set_filter};
ghost use Rattle.ng_machine.specs.Words.{first_refusal};
ghost use Rattle.ng_machine.specs.State.{blank_of};
ghost use Rattle.ng_filter_types.specs.Filters.{is_invalid};
ghost use Rattle.ng_filter_types.specs.State.{etf_state};

use crate::counters::Counters;
use crate::filters::Filters;
use crate::matchhook::filter_in;
use ng_base::{Errno, Kind, Name, NoMemory};
use ng_machine::{Body, Counts, EtfWay, Farewell, Outcome};
use ng_message::{HAS_ANSWER, Msg, READ_ONLY};
use ng_plan::node::{HookList, Node};
use ng_plan::{Plan, Way, answers, downstream, eval, fails, nomatch, nothing};
use std::alloc::Global;
use std::marker::Model;
use std::sync::Arc;

/// `NGM_ETF_SET_FILTER`.
const SET_FILTER: u32 = 1;

/// `NGM_ETF_GET_STATUS`.
const GET_STATUS: u32 = HAS_ANSWER + 2;

/// Asks for the filters.
const GET_TABLE: u32 = READ_ONLY + HAS_ANSWER + 3;

/// The bytes of a filter: its hook and its ethertype.
const FILTER_LEN: usize = 34;

/// The least ethertype: a lesser number after the addresses is a length (IEEE 802.3).
const MIN_ETHERTYPE: u16 = 1_536;

/// A node that sends a frame by `downstream` out of the hook of its ethertype's filter, and out of `nomatch` where there
/// is none; what comes by `nomatch`, and by a filter's hook with its ethertype, goes out of `downstream`. Its messages are
/// `setfilter` and `getstatus` of ng_etf(4), and `gettable`.
///
/// A contract sees its hooks, its filters and its counters, inFrames and outFrames. Each filter's hook is there.
#[derive(Drop)]
pub struct EtfNode {
    hooks: HookList,
    filters: Filters,
    counters: Counters,
}

impl Model for EtfNode {
    ghost use Rattle.ng_machine.specs.Sound.{KeepsByHooks};
    ghost use Rattle.ng_machine.specs.State.{EtfState};
    ghost use Rattle.ng_filter_types.specs.State.{EtfParts};

    ghost Value = { EtfParts };

    ghost view = { λ n. record { hooks = n.hooks.names; kept = record { filters = n.filters; counters = n.counters } } };

    ghost invariant = { λ n. KeepsByHooks (EtfState (record { filters = n.filters; counters = n.counters })) n.hooks.names };
}

/// Whether setfilter takes such values of no filter.
fn is_invalid(filter: &EtfWay) -> bool
    requires { is_name filter.now.hook ≡ true }
    ensures { result ≡ is_invalid filter.now }
{
    downstream() == filter.hook || nomatch() == filter.hook || filter.ethertype < MIN_ETHERTYPE
}

impl EtfNode {
    /// What its plan is made of.
    fn way(&self, alloc: Global) -> Result<Way, NoMemory>
        ensures { IfOk result (λ way. way ≡ Way.Etf self.now.hooks self.now.kept.filters) }
    {
        Ok(Way::Etf {
            hooks: self.hooks.names(alloc)?,
            filters: self.filters.copy(alloc)?,
        })
    }

    /// Adds what was counted to the counters.
    #[tactic(auto, using(crate::proofs::Counting::etf_counted))]
    fn count(&mut self, counts: &[(Name, u64, u64)])
        ensures hooks { self.new.hooks ≡ self.old.hooks }
        ensures kept { self.new.kept ≡ after_counts count_etf self.old.kept counts.now }
    {
        self.counters.absorb(counts);
    }

    /// Why a filter isn't added, if it isn't.
    #[tactic(auto, using(crate::proofs::Refusals::filter_invalid, crate::proofs::Refusals::filter_missing, crate::proofs::Refusals::filter_taken, crate::proofs::Refusals::filter_crowded, crate::proofs::Refusals::filter_free))]
    fn refusal(&self, filter: &EtfWay) -> Option<Errno>
        requires { is_name filter.now.hook ≡ true }
        ensures answer { result ≡ first_refusal (filter_refusals self.now.kept self.now.hooks filter.now) }
        ensures there { IfNone result (has_name self.now.hooks filter.now.hook ≡ true) }
        ensures fresh { IfNone result (is_some (etf_filter_of filter.now.ethertype self.now.kept.filters) ≡ false) }
        ensures room { IfNone result (nat_le most_filters (length self.now.kept.filters) ≡ false) }
    {
        if is_invalid(filter) {
            Some(Errno::INVAL)
        } else if !self.hooks.has(&filter.hook) {
            Some(Errno::NOENT)
        } else if self.filters.has(filter.ethertype) {
            Some(Errno::EXIST)
        } else if self.filters.is_full() {
            Some(Errno::NFILE)
        } else {
            None
        }
    }

    /// Adds a filter, or says why not.
    fn add(&mut self, alloc: Global, filter: EtfWay) -> Result<Outcome, NoMemory>
        requires { is_name filter.hook ≡ true }
        ensures hooks { self.new.hooks ≡ self.old.hooks }
        ensures after { OnOk result (self.new.kept ≡ (set_filter self.old.kept self.old.hooks filter).after) }
        ensures outcome { IfOk result (λ outcome. outcome ≡ (set_filter self.old.kept self.old.hooks filter).outcome) }
        ensures err { OnErr result (self.new.kept ≡ self.old.kept) }
    {
        if let Some(errno) = self.refusal(&filter) {
            return Ok(fails(alloc, errno));
        }
        self.filters.add(filter)?;
        Ok(nothing(alloc))
    }

    /// Works on `setfilter`.
    #[tactic(auto, using(crate::proofs::Refusals::filter_unnamed))]
    fn set_filter(&mut self, alloc: Global, args: &[u8]) -> Result<Outcome, NoMemory>
        ensures hooks { self.new.hooks ≡ self.old.hooks }
        ensures after { OnOk result (self.new.kept ≡ (etf_message self.old.kept self.old.hooks 1 args.now).after) }
        ensures outcome { IfOk result (λ outcome. outcome ≡ (etf_message self.old.kept self.old.hooks 1 args.now).outcome) }
        ensures err { OnErr result (self.new.kept ≡ self.old.kept) }
    {
        if args.len() != FILTER_LEN {
            return Ok(fails(alloc, Errno::INVAL));
        }
        match filter_in(args) {
            Some(filter) => self.add(alloc, filter),
            None => Ok(fails(alloc, Errno::INVAL)),
        }
    }

    /// What a message that sets nothing is answered.
    fn reply(&self, alloc: Global, number: u32, args: &[u8]) -> Result<Outcome, NoMemory>
        requires { number ≢ 1 }
        ensures { IfOk result (λ outcome. outcome ≡ (etf_message self.now.kept self.now.hooks number args.now).outcome) }
    {
        if !args.is_empty() {
            return Ok(fails(alloc, Errno::INVAL));
        }
        match number {
            GET_STATUS => Ok(answers(alloc, self.counters.bytes(alloc)?)),
            GET_TABLE => Ok(answers(alloc, self.filters.bytes(alloc)?)),
            _ => Ok(fails(alloc, Errno::INVAL)),
        }
    }

    /// Works on a message.
    fn obey(&mut self, alloc: Global, number: u32, args: &[u8]) -> Result<Outcome, NoMemory>
        ensures hooks { self.new.hooks ≡ self.old.hooks }
        ensures after { OnOk result (self.new.kept ≡ (etf_message self.old.kept self.old.hooks number args.now).after) }
        ensures outcome { IfOk result (λ outcome. outcome ≡ (etf_message self.old.kept self.old.hooks number args.now).outcome) }
        ensures err { OnErr result (self.new.kept ≡ self.old.kept) }
    {
        if number == SET_FILTER {
            self.set_filter(alloc, args)
        } else {
            self.reply(alloc, number, args)
        }
    }
}

impl Node for EtfNode {
    ghost state = { λ n. etf_state n };

    fn kind(&self) -> Kind {
        Kind::Etf
    }

    fn may(&self, _hook: &Name) -> Result<(), Errno> {
        Ok(())
    }

    #[tactic(auto, using(crate::proofs::Hooks::made))]
    fn newhook(&mut self, _alloc: Global, hook: &Name) -> Result<(), NoMemory> {
        self.hooks.reserve()?;
        self.hooks.add(*hook);
        Ok(())
    }

    fn cut(&mut self, hook: &Name) {
        self.hooks.cut(hook);
        self.filters.cut(hook);
    }

    fn lasting(&self) -> bool {
        false
    }

    fn plan(&self, alloc: Global) -> Result<Option<Arc<Plan>>, NoMemory> {
        Ok(Some(Plan::share(alloc, self.way(alloc)?)?))
    }

    fn absorb(&mut self, counts: &Counts) {
        self.count(counts.as_slice());
    }

    fn answer(&self, alloc: Global, msg: &Msg) -> Result<Outcome, NoMemory> {
        self.reply(alloc, msg.header.cmd, &msg.args.0)
    }

    fn write(&mut self, alloc: Global, body: &Body) -> Result<Outcome, NoMemory> {
        match body {
            Body::Frame { door, packet, .. } => {
                let plan = Plan::share(alloc, self.way(alloc)?)?;
                let outcome = eval(alloc, &plan, door, packet)?;
                self.count(outcome.counts.as_slice());
                Ok(outcome)
            }
            Body::Msg(msg) => self.obey(alloc, msg.header.cmd, &msg.args.0),
            _ => Ok(nothing(alloc)),
        }
    }

    fn farewell(&self) -> Farewell {
        Farewell::Plain
    }
}

/// An etf node without hooks and filters, whose counters are 0.
///
/// # Errors
/// `NoMemory` where memory ran out, and for nothing else.
pub fn blank_etf(alloc: Global) -> Result<EtfNode, NoMemory>
    ensures { IfOk result (λ node. etf_state node ≡ blank_of Kind.Etf) }
{
    Ok(EtfNode {
        hooks: HookList::new(alloc),
        filters: Filters::new(alloc),
        counters: Counters::new(),
    })
}
