// The hooks that an address names.
use crate::cut::{after_dot, cut};
use ng_base::Name;
use std::marker::Model;

/// The names of hooks, in the order in which they stand in an address. It borrows the address's
/// bytes and takes no memory.
///
/// A contract sees it as the list of the names' bytes; code goes over it as an iterator of `Name`.
#[derive(Debug, Drop)]
pub struct Hooks<'a> {
    // Names with a dot between them, and perhaps one dot behind the last.
    text: &'a [u8],
}

impl<'a> Model for Hooks<'a> {
    ghost use Rattle.std.specs.Prelude.{ℕ, List};
    ghost use Rattle.ng_path.specs.Segments.{hook_names, AreNamesJoined};

    ghost Value = { List (List ℕ) };

    ghost view = { λ h. hook_names h.text.now };

    ghost invariant = { λ h. AreNamesJoined h.text.now };
}

impl<'a> Hooks<'a> {
    ghost use Rattle.std.specs.Prelude.{◌≡◌};
    ghost use Rattle.ng_path.specs.Segments.{hook_names};
    ghost use Rattle.ng_path.specs.Grammar.{IsHookText};

    /// The hooks of a hook part that has no fault.
    pub(crate) fn of(text: &'a [u8]) -> Hooks<'a>
        requires { IsHookText text.now (hook_names text.now) }
        ensures { result ≡ hook_names text.now }
    {
        if let Some(rest) = after_dot(text) {
            return Hooks { text: rest };
        }
        Hooks { text }
    }

    /// The same hooks, to go over; `self` stays as it is.
    pub fn iter(&self) -> Hooks<'a>
        ensures { result ≡ self.now }
    {
        Hooks { text: self.text }
    }
}

impl<'a> Iterator for Hooks<'a> {
    type Item = Name;

    ghost use Rattle.std.specs.Iterator.{YieldsFirst, item_count};

    ghost next_gives = { YieldsFirst (λ hooks. hooks) };

    ghost remaining = { item_count (λ hooks. hooks) };

    fn next(&mut self) -> Option<Name> {
        if self.text.is_empty() {
            return None;
        }
        let (part, rest) = cut(self.text, b'.');
        self.text = rest.unwrap_or(&[]);
        let Ok(name) = Name::read(part) else {
            unreachable!()
        };
        Some(name)
    }
}
