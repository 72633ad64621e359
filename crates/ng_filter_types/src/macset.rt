// macset: parts frames by whether their source is in a set of addresses. The type is this project's own.
ghost use Rattle.std.specs.Prelude.{◌≡◌, ◌≢◌, ◌∷◌, [], false, length, nat_le, IfOk, IfNone, OnOk, OnErr};
ghost use Rattle.ng_base.specs.Names.{has_name};
ghost use Rattle.ng_machine.specs.Counters.{after_counts};
ghost use Rattle.ng_machine.specs.kinds.Macset.{add_address, address_refusals, count_macset, delete_address, has_address, macset_message, most_addresses};
ghost use Rattle.ng_machine.specs.Names.{all_hook, known_hook, other_hook};
ghost use Rattle.ng_machine.specs.Words.{first_refusal};
ghost use Rattle.ng_machine.specs.State.{blank_of};
ghost use Rattle.ng_filter_types.specs.State.{macset_state};

use crate::addresses::Addresses;
use crate::counters::Counters;
use ng_base::{Errno, Kind, Name, NoMemory};
use ng_machine::{Body, Counts, Farewell, Outcome};
use ng_message::{HAS_ANSWER, Msg, READ_ONLY};
use ng_plan::lookup::is_group;
use ng_plan::node::{HookList, Node};
use ng_plan::{Plan, Way, all_hook, answers, eval, fails, known_hook, nothing, other_hook};
use std::alloc::Global;
use std::marker::Model;
use std::sync::Arc;

/// Adds an address.
const ADD: u32 = 1;

/// Deletes an address.
const DELETE: u32 = 2;

/// Asks for the addresses.
const GET_TABLE: u32 = READ_ONLY + HAS_ANSWER + 3;

/// Asks for the counters.
const GET_STATS: u32 = HAS_ANSWER + 4;

/// A node that sends a frame by `all` out of `known` where its source is in the set, and out of `other` where it isn't;
/// what comes by these two goes out of `all`. Its messages are `add`, `del`, `gettable` and `getstats`.
///
/// A contract sees its hooks, its addresses and its counters, knownFrames and otherFrames.
#[derive(Drop)]
pub struct MacsetNode {
    hooks: HookList,
    addresses: Addresses,
    counters: Counters,
}

impl Model for MacsetNode {
    ghost use Rattle.ng_filter_types.specs.State.{MacsetParts};

    ghost Value = { MacsetParts };

    ghost view = { λ n. record { hooks = n.hooks.names; kept = record { addresses = n.addresses; counters = n.counters } } };
}

/// Whether a macset has a hook of this name.
fn is_of_macset(hook: &Name) -> bool
    ensures { result ≡ has_name (all_hook ∷ known_hook ∷ other_hook ∷ []) hook.now }
{
    all_hook() == *hook || known_hook() == *hook || other_hook() == *hook
}

impl MacsetNode {
    /// What its plan is made of.
    fn way(&self, alloc: Global) -> Result<Way, NoMemory>
        ensures { IfOk result (λ way. way ≡ Way.Macset self.now.hooks self.now.kept.addresses) }
    {
        Ok(Way::Macset {
            hooks: self.hooks.names(alloc)?,
            set: self.addresses.copy(alloc)?,
        })
    }

    /// Adds what was counted to the counters.
    #[tactic(auto, using(crate::proofs::Counting::macset_counted))]
    fn count(&mut self, counts: &[(Name, u64, u64)])
        ensures hooks { self.new.hooks ≡ self.old.hooks }
        ensures kept { self.new.kept ≡ after_counts count_macset self.old.kept counts.now }
    {
        self.counters.absorb(counts);
    }

    /// Why an address isn't added, if it isn't.
    #[tactic(auto, using(crate::proofs::Refusals::address_group, crate::proofs::Refusals::address_taken, crate::proofs::Refusals::address_crowded, crate::proofs::Refusals::address_free))]
    fn refusal(&self, address: &[u8; 6]) -> Option<Errno>
        ensures answer { result ≡ first_refusal (address_refusals self.now.kept address.now) }
        ensures fresh { IfNone result (has_address self.now.kept.addresses address.now ≡ false) }
        ensures room { IfNone result (nat_le most_addresses (length self.now.kept.addresses) ≡ false) }
    {
        if is_group(address) {
            Some(Errno::INVAL)
        } else if self.addresses.has(address) {
            Some(Errno::EXIST)
        } else if self.addresses.is_full() {
            Some(Errno::NFILE)
        } else {
            None
        }
    }

    /// Adds an address, or says why not.
    fn add_address(&mut self, alloc: Global, address: [u8; 6]) -> Result<Outcome, NoMemory>
        ensures hooks { self.new.hooks ≡ self.old.hooks }
        ensures after { OnOk result (self.new.kept ≡ (add_address self.old.kept address).after) }
        ensures outcome { IfOk result (λ outcome. outcome ≡ (add_address self.old.kept address).outcome) }
        ensures err { OnErr result (self.new.kept ≡ self.old.kept) }
    {
        if let Some(errno) = self.refusal(&address) {
            return Ok(fails(alloc, errno));
        }
        self.addresses.add(address)?;
        Ok(nothing(alloc))
    }

    /// Works on `add`.
    fn add(&mut self, alloc: Global, args: &[u8]) -> Result<Outcome, NoMemory>
        ensures hooks { self.new.hooks ≡ self.old.hooks }
        ensures after { OnOk result (self.new.kept ≡ (macset_message self.old.kept 1 args.now).after) }
        ensures outcome { IfOk result (λ outcome. outcome ≡ (macset_message self.old.kept 1 args.now).outcome) }
        ensures err { OnErr result (self.new.kept ≡ self.old.kept) }
    {
        match <[u8; 6]>::try_from(args) {
            Ok(address) => self.add_address(alloc, address),
            Err(_) => Ok(fails(alloc, Errno::INVAL)),
        }
    }

    /// Takes an address out, or says why not. It takes no memory.
    #[tactic(auto, using(crate::proofs::Refusals::delete_absent, crate::proofs::Refusals::delete_there))]
    fn delete_address(&mut self, alloc: Global, address: &[u8; 6]) -> Outcome
        ensures hooks { self.new.hooks ≡ self.old.hooks }
        ensures after { self.new.kept ≡ (delete_address self.old.kept address.now).after }
        ensures outcome { result ≡ (delete_address self.old.kept address.now).outcome }
    {
        if !self.addresses.has(address) {
            return fails(alloc, Errno::NOENT);
        }
        self.addresses.cut(address);
        nothing(alloc)
    }

    /// Works on `del`. It takes no memory.
    fn delete(&mut self, alloc: Global, args: &[u8]) -> Outcome
        ensures hooks { self.new.hooks ≡ self.old.hooks }
        ensures after { self.new.kept ≡ (macset_message self.old.kept 2 args.now).after }
        ensures outcome { result ≡ (macset_message self.old.kept 2 args.now).outcome }
    {
        match <[u8; 6]>::try_from(args) {
            Ok(address) => self.delete_address(alloc, &address),
            Err(_) => fails(alloc, Errno::INVAL),
        }
    }

    /// What a message that sets nothing is answered.
    fn reply(&self, alloc: Global, number: u32, args: &[u8]) -> Result<Outcome, NoMemory>
        requires add { number ≢ 1 }
        requires delete { number ≢ 2 }
        ensures { IfOk result (λ outcome. outcome ≡ (macset_message self.now.kept number args.now).outcome) }
    {
        if !args.is_empty() {
            return Ok(fails(alloc, Errno::INVAL));
        }
        match number {
            GET_TABLE => Ok(answers(alloc, self.addresses.bytes(alloc)?)),
            GET_STATS => Ok(answers(alloc, self.counters.bytes(alloc)?)),
            _ => Ok(fails(alloc, Errno::INVAL)),
        }
    }

    /// Works on a message.
    fn obey(&mut self, alloc: Global, number: u32, args: &[u8]) -> Result<Outcome, NoMemory>
        ensures hooks { self.new.hooks ≡ self.old.hooks }
        ensures after { OnOk result (self.new.kept ≡ (macset_message self.old.kept number args.now).after) }
        ensures outcome { IfOk result (λ outcome. outcome ≡ (macset_message self.old.kept number args.now).outcome) }
        ensures err { OnErr result (self.new.kept ≡ self.old.kept) }
    {
        match number {
            ADD => self.add(alloc, args),
            DELETE => Ok(self.delete(alloc, args)),
            _ => self.reply(alloc, number, args),
        }
    }
}

impl Node for MacsetNode {
    ghost state = { λ n. macset_state n };

    fn kind(&self) -> Kind {
        Kind::Macset
    }

    fn may(&self, hook: &Name) -> Result<(), Errno> {
        if is_of_macset(hook) {
            Ok(())
        } else {
            Err(Errno::INVAL)
        }
    }

    fn newhook(&mut self, _alloc: Global, hook: &Name) -> Result<(), NoMemory> {
        self.hooks.reserve()?;
        self.hooks.add(*hook);
        Ok(())
    }

    fn cut(&mut self, hook: &Name) {
        self.hooks.cut(hook);
    }

    fn lasting(&self) -> bool {
        false
    }

    fn plan(&self, alloc: Global) -> Result<Option<Arc<Plan>>, NoMemory> {
        Ok(Some(Plan::share(alloc, self.way(alloc)?)?))
    }

    fn absorb(&mut self, counts: &Counts) {
        self.count(counts.as_slice());
    }

    fn answer(&self, alloc: Global, msg: &Msg) -> Result<Outcome, NoMemory> {
        self.reply(alloc, msg.header.cmd, &msg.args.0)
    }

    fn write(&mut self, alloc: Global, body: &Body) -> Result<Outcome, NoMemory> {
        match body {
            Body::Frame { door, packet, .. } => {
                let plan = Plan::share(alloc, self.way(alloc)?)?;
                let outcome = eval(alloc, &plan, door, packet)?;
                self.count(outcome.counts.as_slice());
                Ok(outcome)
            }
            Body::Msg(msg) => self.obey(alloc, msg.header.cmd, &msg.args.0),
            _ => Ok(nothing(alloc)),
        }
    }

    fn farewell(&self) -> Farewell {
        Farewell::Plain
    }
}

/// A macset without hooks and addresses, whose counters are 0.
///
/// # Errors
/// `NoMemory` where memory ran out, and for nothing else.
pub fn blank_macset(alloc: Global) -> Result<MacsetNode, NoMemory>
    ensures { IfOk result (λ node. macset_state node ≡ blank_of Kind.Macset) }
{
    Ok(MacsetNode {
        hooks: HookList::new(alloc),
        addresses: Addresses::new(alloc),
        counters: Counters::new(),
    })
}
