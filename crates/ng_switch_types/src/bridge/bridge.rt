// What a bridge keeps beside its hooks.
ghost use Rattle.std.specs.Prelude.{◌≡◌, map, true, None, IfOk, OnErr, OnOk};
ghost use Rattle.std.specs.List.{find};
ghost use Rattle.std.specs.Option.{option_copied};
ghost use Rattle.ng_machine.specs.kinds.Bridge.{blank_bridge, bridge_clear, bridge_learn, bridge_reset, loops, at_link, bridge_tick, bridge_with_hook, bridge_without_hook, count_bridge, has_number, host_way, link_number, link_way};
ghost use Rattle.ng_machine.specs.Counters.{after_counts, zeros};

use crate::bridge::host::SEEN;
use crate::bridge::hosts::Hosts;
use crate::bridge::link::Link;
use crate::bridge::links::Links;
use crate::bridge::standing::{Standing, standing_on};
use ng_base::{Name, NoMemory};
use ng_plan::lookup::{NameTable, address_number};
use ng_plan::{BridgeConfig, BridgePlan, link_number};
use std::alloc::Global;
use std::marker::Model;

/// How many counters a link has.
const COUNTERS: u64 = 14;

/// A bridge: its configuration, whether it stays without hooks, its links and its hosts.
#[derive(Drop)]
pub struct Bridge {
    config: BridgeConfig,
    persistent: bool,
    links: Links,
    hosts: Hosts,
}

impl Model for Bridge {
    ghost use Rattle.ng_machine.specs.kinds.Bridge as machine;

    ghost Value = { machine.Bridge };

    ghost view = { λ b. record { config = b.config; persistent = b.persistent; links = b.links; hosts = b.hosts } };
}

impl Bridge {
    /// A bridge without links, with the configuration that ng_bridge(4) begins with. It takes no memory.
    pub fn new(alloc: Global) -> Bridge
        ensures { result ≡ blank_bridge }
    {
        Bridge {
            config: BridgeConfig {
                debug_level: 1,
                loop_timeout: 60,
                max_staleness: 900,
                min_stable_age: 1,
            },
            persistent: false,
            links: Links::new(alloc),
            hosts: Hosts::new(alloc),
        }
    }

    /// The configuration.
    pub fn config(&self) -> BridgeConfig
        ensures { result ≡ self.now.config }
    {
        self.config
    }

    /// Whether it stays without hooks.
    pub fn is_persistent(&self) -> bool
        ensures { result ≡ self.now.persistent }
    {
        self.persistent
    }

    /// The link of a number.
    pub fn link(&self, number: u8) -> Option<&Link>
        ensures { option_copied result ≡ find (has_number number) (self.now).links }
    {
        self.links.find(number)
    }

    /// The hosts.
    pub fn hosts(&self) -> &Hosts
        ensures { result.now ≡ self.now.hosts }
    {
        &self.hosts
    }

    /// What a plan holds of the bridge.
    ///
    /// # Errors
    /// `NoMemory` where memory ran out, and for nothing else.
    pub fn plan(&self, alloc: Global) -> Result<BridgePlan, NoMemory>
        ensures config { IfOk result (λ plan. plan.config ≡ self.now.config) }
        ensures links { IfOk result (λ plan. plan.links ≡ map link_way (self.now).links) }
        ensures hosts { IfOk result (λ plan. plan.hosts ≡ map host_way (self.now).hosts) }
    {
        Ok(BridgePlan {
            config: self.config,
            links: NameTable::new(alloc, self.links.ways(alloc)?)?,
            hosts: self.hosts.ways(alloc)?,
        })
    }

    /// Adds the link of a hook, which no link has.
    ///
    /// # Errors
    /// `NoMemory` where memory ran out, and for nothing else; the bridge is then as before.
    pub fn add_link(&mut self, hook: &Name) -> Result<(), NoMemory>
        requires { find (has_number (link_number hook.now)) (self.old).links ≡ None }
        ensures ok { OnOk result (self.new ≡ bridge_with_hook self.old hook.now) }
        ensures err { OnErr result (self.new ≡ self.old) }
    {
        self.links.add(link_number(hook))
    }

    /// Takes the link of a hook away, with the hosts behind it.
    pub fn cut_link(&mut self, hook: &Name)
        ensures { self.new ≡ bridge_without_hook self.old hook.now }
    {
        let link = link_number(hook);
        self.links.cut(link);
        self.hosts.forget(link);
    }

    /// Adds what was counted once: to a link's counter, or to how often a host was seen.
    fn count(&mut self, hook: &Name, number: u64, amount: u64)
        ensures { self.new ≡ count_bridge self.old (hook.now, number, amount) }
    {
        if number < COUNTERS {
            self.links.count(link_number(hook), number, amount);
        } else {
            self.hosts.see(number, amount);
        }
    }

    /// Adds what was counted. What is neither of a link nor of a host is passed over.
    pub fn absorb(&mut self, counts: &[(Name, u64, u64)])
        ensures { self.new ≡ after_counts count_bridge self.old counts.now }
    {
        for count in counts {
            self.count(&count.0, count.1, count.2);
        }
    }

    /// Makes a link mute on which a loop was found, and forgets the hosts behind it.
    fn mute_link(&mut self, number: u8)
        ensures { self.new ≡ loops self.old number }
    {
        self.links.mute_for(number, self.config.loop_timeout);
        self.hosts.forget(number);
    }

    /// Learns that the host of an address is behind the link of a hook, by how the address stands. A mute link teaches
    /// nothing.
    ///
    /// # Errors
    /// `NoMemory` where memory ran out, and for nothing else; the bridge is then as before.
    pub fn learn(&mut self, hook: &Name, addr: &[u8; 6]) -> Result<(), NoMemory>
        ensures ok { OnOk result (self.new ≡ bridge_learn self.old hook.now addr.now) }
        ensures err { OnErr result (self.new ≡ self.old) }
    {
        if self.links.mute_of(hook) > 0 {
            return Ok(());
        }
        let number = link_number(hook);
        match standing_on(&self.config, &self.hosts, number, addr) {
            Standing::Known => self.hosts.see(SEEN + address_number(addr), 1),
            Standing::Looped => self.mute_link(number),
            Standing::News => self.hosts.learn(addr, number)?,
            Standing::Crowded => {}
        }
        Ok(())
    }

    /// Lets so many seconds go by: mutes end, hosts grow old, and those that weren't seen for long are forgotten.
    pub fn tick(&mut self, seconds: u32)
        ensures { self.new ≡ bridge_tick self.old seconds }
    {
        self.links.calm(seconds);
        self.hosts.grow_old(seconds, self.config.max_staleness);
    }

    /// Sets the configuration.
    pub fn set_config(&mut self, config: BridgeConfig)
        ensures { self.new ≡ record (self.old) { config = config } }
    {
        self.config = config;
    }

    /// Lets it stay without hooks from now on.
    pub fn persist(&mut self)
        ensures { self.new ≡ record (self.old) { persistent = true } }
    {
        self.persistent = true;
    }

    /// Forgets hosts, mutes and counters.
    pub fn reset(&mut self)
        ensures { self.new ≡ bridge_reset self.old }
    {
        self.links.reset();
        self.hosts.clear();
    }

    /// Sets the counters of a link to 0.
    pub fn clear(&mut self, number: u8)
        ensures { self.new ≡ record (self.old) { links = at_link number (λ m. record m { counters = zeros 14 }) (self.old).links } }
    {
        self.links.clear(number);
    }
}
