// The links of a bridge.
ghost use Rattle.std.specs.Prelude.{◌≡◌, ◌<◌, ◌≤◌, [], map, not, IfOk, None, OnErr, OnOk};
ghost use Rattle.std.specs.List.{filter, find};
ghost use Rattle.std.specs.Str.{bytes_eq};
ghost use Rattle.std.specs.Option.{option_copied};
ghost use Rattle.ng_machine.specs.kinds.Bridge.{at_link, calm_link, has_number, link_hook, link_way, loop_detects, mute_of, new_link, put_link};
ghost use Rattle.ng_machine.specs.Counters.{raise_at, zeros};
ghost use Rattle.ng_sorted.specs.Order.{IsGap};

use crate::bridge::link::Link;
use ng_base::{Name, NoMemory, Sequence};
use ng_plan::BridgeLink;
use ng_sorted::place;
use std::alloc::Global;
use std::marker::Model;

/// Links in order of their numbers.
#[derive(Drop)]
pub struct Links {
    links: Vec<Link>,
}

impl Model for Links {
    ghost use Rattle.std.specs.Prelude.{List};
    ghost use Rattle.ng_machine.specs.kinds.Bridge as machine;
    ghost use Rattle.ng_sorted.specs.Order.{IsInOrder};

    ghost Value = { List machine.Link };

    ghost view = { λ s. s.links.items };

    ghost invariant = { λ s. IsInOrder (λ l. l.number) s.links.items };
}

impl Links {
    /// No links. It takes no memory.
    pub fn new(alloc: Global) -> Links
        ensures { result ≡ [] }
    {
        Links {
            links: Vec::new(alloc),
        }
    }

    /// The link of this number.
    pub fn find(&self, number: u8) -> Option<&Link>
        ensures { option_copied result ≡ find (has_number number) self.now }
    {
        match place(&self.links, u64::from(number)) {
            Ok(at) => Some(&self.links[at]),
            Err(_) => None,
        }
    }

    /// For how many seconds more the link of a hook is mute.
    pub fn mute_of(&self, hook: &Name) -> u32
        ensures { result ≡ mute_of (map link_way self.now) hook.now }
    {
        match link_of(&self.links, hook) {
            Some(link) => link.mute(),
            None => 0,
        }
    }

    /// What a plan holds of the links.
    ///
    /// # Errors
    /// `NoMemory` where memory ran out, and for nothing else.
    pub fn ways(&self, alloc: Global) -> Result<Sequence<BridgeLink>, NoMemory>
        ensures { IfOk result (λ ways. ways ≡ map link_way self.now) }
    {
        let mut ways = Sequence::new(alloc);
        for link in &self.links {
            ways.push(link.way())?;
        }
        Ok(ways)
    }

    /// Adds the link of a number that no link has.
    ///
    /// # Errors
    /// `NoMemory` where memory ran out, and for nothing else; the links are then as before.
    pub fn add(&mut self, number: u8) -> Result<(), NoMemory>
        requires bound { number ≤ 32 }
        requires fresh { find (has_number number) self.old ≡ None }
        ensures ok { OnOk result (self.new ≡ put_link (new_link number) self.old) }
        ensures err { OnErr result (self.new ≡ self.old) }
    {
        match place(&self.links, u64::from(number)) {
            Ok(_) => unreachable!(),
            Err(at) => insert(&mut self.links, at, number),
        }
    }

    /// Takes the link of this number out.
    pub fn cut(&mut self, number: u8)
        ensures { self.new ≡ filter (λ l. not (has_number number l)) self.old }
    {
        self.links.retain(|link| link.number() != number);
    }

    /// Adds to a counter of the link of this number. Where there is no such link, nothing changes.
    pub fn count(&mut self, number: u8, counter: u64, amount: u64)
        requires { counter < 14 }
        ensures { self.new ≡ at_link number (λ l. record l { counters = raise_at l.counters counter amount }) self.old }
    {
        if let Ok(at) = place(&self.links, u64::from(number)) {
            self.links[at].count(counter, amount);
        }
    }

    /// Sets the counters of the link of this number to 0.
    pub fn clear(&mut self, number: u8)
        ensures { self.new ≡ at_link number (λ l. record l { counters = zeros 14 }) self.old }
    {
        if let Ok(at) = place(&self.links, u64::from(number)) {
            self.links[at].clear();
        }
    }

    /// Makes the link of this number mute for so many seconds, since a loop was found on it.
    pub fn mute_for(&mut self, number: u8, seconds: u32)
        ensures { self.new ≡ at_link number (λ l. record l { mute = seconds; counters = raise_at l.counters loop_detects 1 }) self.old }
    {
        if let Ok(at) = place(&self.links, u64::from(number)) {
            self.links[at].mute_for(seconds);
        }
    }

    /// Lets so many seconds go by for each link.
    pub fn calm(&mut self, seconds: u32)
        ensures { self.new ≡ map (calm_link seconds) self.old }
    {
        calm_all(&mut self.links, seconds);
    }

    /// Ends the mutes and sets the counters to 0.
    pub fn reset(&mut self)
        ensures { self.new ≡ map (λ l. new_link l.number) self.old }
    {
        reset_all(&mut self.links);
    }
}

/// The link of a hook.
fn link_of<'a>(links: &'a [Link], hook: &Name) -> Option<&'a Link>
    ensures { option_copied result ≡ find (λ l. bytes_eq (link_hook l.number) hook.now) links.now }
{
    links.iter().find(|link| link.way().hook == *hook)
}

/// Adds the link of a number in its place.
fn insert(links: &mut Vec<Link>, at: usize, number: u8) -> Result<(), NoMemory>
    requires bound { number ≤ 32 }
    requires gap { IsGap (λ l. l.number) links.old.items number at }
    ensures ok { OnOk result (links.new.items ≡ put_link (new_link number) links.old.items) }
    ensures err { OnErr result (links.new.items ≡ links.old.items) }
{
    links.insert(at, Link::new(number))?;
    Ok(())
}

/// Lets so many seconds go by for each link.
fn calm_all(links: &mut [Link], seconds: u32)
    ensures { links.new ≡ map (calm_link seconds) links.old }
{
    for link in links.iter_mut() {
        link.calm(seconds);
    }
}

/// Ends the mutes and sets the counters to 0.
fn reset_all(links: &mut [Link])
    ensures { links.new ≡ map (λ l. new_link l.number) links.old }
{
    for link in links.iter_mut() {
        link.reset();
    }
}
