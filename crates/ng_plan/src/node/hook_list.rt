// The hooks of a node, which every type keeps.
ghost use Rattle.std.specs.Prelude.{◌≡◌, ◌<◌, [], ◌∷◌, ◌++◌, false, IfOk, OnOk};
ghost use Rattle.ng_base.specs.Names.{has_name, without_name};

use ng_base::{Name, NameList, Names, NoMemory};
use std::alloc::Global;
use std::marker::Model;

/// The names of a node's hooks, in the order in which they were made. Whether there is a hook of a name is found in a time of
/// the logarithm of how many there are, and no other hook is gone over to cut one.
///
/// A contract sees the names, and for how many more there is memory. A type whose hook brings more than its
/// name reserves memory for all of it first, and then adds what cannot fail.
#[derive(Drop)]
pub struct HookList {
    list: NameList,
}

impl Model for HookList {
    ghost use Rattle.ng_plan.specs.node.Hooks.{Hooks};

    ghost Value = { Hooks };

    ghost view = { λ h. record { names = h.list.names; room = h.list.room } };
}

impl HookList {
    /// No hooks. It takes no memory.
    pub fn new(alloc: Global) -> HookList
        ensures { result.names ≡ [] }
    {
        HookList {
            list: NameList::new(alloc),
        }
    }

    /// The names, to be looked at.
    pub fn as_slice(&self) -> &[Name]
        ensures { result.now ≡ self.now.names }
    {
        self.list.as_slice()
    }

    /// Whether there is a hook of this name.
    pub fn has(&self, name: &Name) -> bool
        ensures { result ≡ has_name self.now.names name.now }
    {
        self.list.has(name)
    }

    /// Takes the memory for one more hook.
    ///
    /// # Errors
    /// `NoMemory` where memory ran out, or where 2^64 - 1 hooks were made.
    pub fn reserve(&mut self) -> Result<(), NoMemory>
        ensures room { OnOk result (0 < self.new.room) }
        ensures same { self.new.names ≡ self.old.names }
    {
        self.list.reserve()
    }

    /// Adds a hook of a new name at the end. There has to be memory for it, and it cannot fail. Where the hook
    /// is cut again right after, the names are as before.
    pub fn add(&mut self, name: Name)
        requires room { 0 < self.old.room }
        requires fresh { has_name self.old.names name ≡ false }
        ensures added { self.new.names ≡ self.old.names ++ name ∷ [] }
        ensures undone { without_name self.new.names name ≡ self.old.names }
    {
        self.list.add(name);
    }

    /// Takes the hook of this name out.
    pub fn cut(&mut self, name: &Name)
        ensures { self.new.names ≡ without_name self.old.names name.now }
    {
        self.list.remove(name);
    }

    /// A copy of the names, as a plan holds them.
    ///
    /// # Errors
    /// `NoMemory` where memory ran out, and for nothing else.
    pub fn names(&self, alloc: Global) -> Result<Names, NoMemory>
        ensures { IfOk result (λ names. names ≡ self.now.names) }
    {
        Ok(Names::from_list(self.list.again(alloc)?))
    }
}
