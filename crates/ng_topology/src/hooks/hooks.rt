// The hooks of a node, in the order in which they were made.
ghost use Rattle.std.specs.Prelude.{◌≡◌, ◌≤◌, ◌<◌, ◌++◌, ◌∷◌, [], find, length, map, is_some, None, Some, IfOk, IsSome, IsTrue, OnOk, OnErr};
ghost use Rattle.std.specs.BTreeMap.{get, Updates};
ghost use Rattle.std.specs.Cmp.Lexicographic.{slice_cmp};
ghost use Rattle.std.specs.Option.{option_copied};
ghost use Rattle.std.specs.Ordering.{nat_cmp};
ghost use Rattle.std.specs.List.{position_from};
ghost use Rattle.ng_machine.specs.World.{is_named, change_hook, settle_hook, bind_to};
ghost use Rattle.ng_topology.specs.hooks.Hooks.{NamesDiffer, count_joined, is_linked, weight, without_named};

use ng_base::{LinkId, Name, NoMemory};
use ng_machine::{End, Hook};
use std::alloc::Global;
use std::collections::BTreeMap;
use std::marker::Model;

/// Hooks of different names. A contract sees their list.
///
/// A hook is found by its name in a tree, so it takes no longer where a node has thousands of them.
#[derive(Drop)]
pub struct Hooks {
    items: Vec<Hook>,
    // Each hook under its name.
    index: BTreeMap<Name, Hook>,
    // How many of the hooks are joined.
    joined: usize,
}

impl Model for Hooks {
    ghost use Rattle.std.specs.Prelude.{List};
    ghost use Rattle.ng_machine.specs.declared.hook.Hook.{Hook};
    ghost use Rattle.ng_topology.specs.hooks.Hooks.{AreKept};

    ghost Value = { List Hook };

    ghost view = { λ h. h.items.items };

    ghost invariant = { λ h. AreKept h.items.items h.index h.joined };
}

// Puts a hook under its name, which is not in the index.
fn insert_in(index: &mut BTreeMap<Name, Hook>, hook: &Hook) -> Result<(), NoMemory>
    ensures ok { OnOk result (Updates (slice_cmp nat_cmp) index.old index.new hook.now.name (Some hook.now)) }
    ensures err { OnErr result (index.new.entries ≡ index.old.entries) }
{
    index.insert(hook.name, *hook)?;
    Ok(())
}

// Puts another hook under a name that is in the index, which takes no memory.
fn replace_in(index: &mut BTreeMap<Name, Hook>, name: &Name, hook: &Hook)
    requires { IsSome (get (slice_cmp nat_cmp) index.old name.now) }
    ensures { Updates (slice_cmp nat_cmp) index.old index.new name.now (Some hook.now) }
{
    if index.insert(*name, *hook).is_err() {
        unreachable!()
    }
}

// Takes a name out of the index.
fn remove_in(index: &mut BTreeMap<Name, Hook>, name: &Name)
    ensures { Updates (slice_cmp nat_cmp) index.old index.new name.now None }
{
    let _hook = index.remove(name);
}

fn settle_hook(hook: &Hook) -> Hook
    ensures { result ≡ settle_hook hook.now }
{
    Hook {
        joined: true,
        ..*hook
    }
}

fn bind_to(hook: &Hook, link: LinkId, peer: End) -> Hook
    ensures { result ≡ bind_to link peer.node peer.hook hook.now }
{
    Hook {
        link,
        peer,
        ..*hook
    }
}

// What a hook adds to the number of joined hooks.
fn weight(hook: &Hook) -> usize
    ensures { result ≡ weight hook.now }
{
    usize::from(hook.joined)
}

impl Hooks {
    /// No hooks.
    pub fn new(alloc: Global) -> Hooks
        ensures { result ≡ [] }
    {
        Hooks {
            items: Vec::new(alloc),
            index: BTreeMap::new(alloc),
            joined: 0,
        }
    }

    /// One hook.
    ///
    /// # Errors
    /// `NoMemory` where memory ran out, and for nothing else.
    pub fn one(alloc: Global, hook: Hook) -> Result<Hooks, NoMemory>
        ensures { IfOk result (λ hooks. hooks ≡ hook ∷ []) }
    {
        let mut hooks = Hooks::new(alloc);
        hooks.push(hook)?;
        Ok(hooks)
    }

    /// The hooks, to be looked at: no two have one name.
    pub fn as_slice(&self) -> &[Hook]
        ensures hooks { result.now ≡ self.now }
        ensures differ { NamesDiffer self.now }
    {
        self.items.as_slice()
    }

    /// How many of the hooks are joined. The number is kept, so it takes no longer where a node has thousands of hooks.
    pub fn joined(&self) -> usize
        ensures { result ≡ count_joined self.now }
    {
        self.joined
    }

    // Whether the hook of that name stands at a place.
    #[tactic(auto, using(crate::proofs::hooks::HookLemmas::place_of_named))]
    fn is_at(&self, place: usize, name: &Name) -> bool
        ensures { IsTrue result → position_from (is_named name.now) 0 self.now ≡ Some place }
    {
        place < self.items.len() && self.items[place].name == *name
    }

    // The place of the first hook whose link isn't below this one, where links ascend.
    fn first_from(&self, link: LinkId) -> usize
        ensures { result ≤ length self.now }
    {
        self.items.partition_point(|hook| hook.link.0 < link.0)
    }

    // The place of the hook of that name, if there is one. A hook that is made later has no lower link, but where one was
    // bound anew, and two of one node may have the same: so it is looked for by its link first, and then one by one.
    #[tactic(auto, using(crate::proofs::hooks::HookLemmas::no_place))]
    fn place(&self, name: &Name) -> Option<usize>
        ensures { result ≡ position_from (is_named name.now) 0 self.now }
    {
        let hook = self.index.get(name)?;
        let first = self.first_from(hook.link);
        if self.is_at(first, name) {
            return Some(first);
        }
        if self.is_at(first + 1, name) {
            return Some(first + 1);
        }
        self.items.iter().position(|hook| hook.name == *name)
    }

    /// The hook of that name, if there is one.
    pub fn find(&self, name: &Name) -> Option<&Hook>
        ensures { option_copied result ≡ find (is_named name.now) self.now }
    {
        self.index.get(name)
    }

    /// The hook of that name, if there is one. It is looked for at a place and at the next one first, so whoever asks for hooks
    /// in their order finds each at once.
    pub fn find_near(&self, name: &Name, near: usize) -> Option<&Hook>
        ensures { option_copied result ≡ find (is_named name.now) self.now }
    {
        if self.is_at(near, name) {
            return Some(&self.items[near]);
        }
        if near < self.items.len() && self.is_at(near + 1, name) {
            return Some(&self.items[near + 1]);
        }
        self.index.get(name)
    }

    /// Whether there is a hook of that name with that link.
    #[tactic(auto, using(crate::proofs::hooks::HookLemmas::indexed_linked, crate::proofs::hooks::HookLemmas::indexed_unlinked))]
    pub fn is_linked(&self, name: &Name, link: LinkId) -> bool
        ensures { result ≡ is_some (find (is_linked name.now link) self.now) }
    {
        match self.index.get(name) {
            Some(hook) => hook.link.0 == link.0,
            None => false,
        }
    }

    /// Adds a hook at the end, of a name that none has.
    ///
    /// # Errors
    /// `NoMemory` where memory ran out, and for nothing else; the hooks are then as before.
    pub fn push(&mut self, hook: Hook) -> Result<(), NoMemory>
        requires { find (is_named hook.name) self.old ≡ None }
        ensures ok { OnOk result (self.new ≡ self.old ++ hook ∷ []) }
        ensures err { OnErr result (self.new ≡ self.old) }
    {
        self.items.reserve(1)?;
        insert_in(&mut self.index, &hook)?;
        let _few = self.items.len();
        self.joined += weight(&hook);
        self.items.push_reserved(hook);
        Ok(())
    }

    /// Takes the hook of that name away, if there is one.
    pub fn remove(&mut self, name: &Name)
        ensures { self.new ≡ without_named name.now self.old }
    {
        if let Some(place) = self.place(name) {
            let hook = self.items.remove(place);
            self.joined -= weight(&hook);
            remove_in(&mut self.index, name);
        }
    }

    /// Takes all hooks away.
    pub fn clear(&mut self)
        ensures { self.new ≡ [] }
    {
        self.items.clear();
        self.index.clear();
        self.joined = 0;
    }

    /// Lets packets out of the hook of that name, if there is one.
    pub fn settle(&mut self, name: &Name)
        ensures { self.new ≡ map (change_hook name.now settle_hook) self.old }
    {
        if let Some(place) = self.place(name) {
            let _few = self.items.len();
            let now = settle_hook(&self.items[place]);
            self.joined += 1 - weight(&self.items[place]);
            self.items[place] = now;
            replace_in(&mut self.index, name, &now);
        }
    }

    /// Gives the hook of that name another link and another peer, if there is one.
    pub fn bind(&mut self, name: &Name, link: LinkId, peer: End)
        ensures { self.new ≡ map (change_hook name.now (bind_to link peer.node peer.hook)) self.old }
    {
        if let Some(place) = self.place(name) {
            let now = bind_to(&self.items[place], link, peer);
            self.items[place] = now;
            replace_in(&mut self.index, name, &now);
        }
    }
}
