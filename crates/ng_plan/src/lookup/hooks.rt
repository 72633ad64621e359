// The hooks that a plan holds.
ghost use Rattle.std.specs.Prelude.{◌≡◌};
ghost use Rattle.ng_base.specs.Names.{has_name};

use ng_base::{Name, Names};
use std::alloc::Global;
use std::marker::Model;

/// The names of a node's hooks. One is looked for by halves, in a time of the logarithm of how many there are. A contract
/// sees the names in their order.
#[derive(Drop)]
pub struct Hooks {
    names: Names,
}

impl Model for Hooks {
    ghost use Rattle.std.specs.Prelude.{ℕ, List};

    ghost Value = { List (List ℕ) };

    ghost view = { λ h. h.names };
}

impl Hooks {
    /// The hooks of these names. It takes no memory.
    pub fn new(names: Names) -> Hooks
        ensures { result ≡ names }
    {
        Hooks { names }
    }

    /// The names, in their order.
    pub fn as_slice(&self) -> &[Name]
        ensures { result.now ≡ self.now }
    {
        self.names.as_slice()
    }

    /// Whether there is a hook of this name.
    pub fn has(&self, name: &Name) -> bool
        ensures { result ≡ has_name self.now name.now }
    {
        self.names.has(name)
    }
}
