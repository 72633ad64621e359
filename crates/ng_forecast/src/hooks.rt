// How many packets go to the reader by each hook.
ghost use Rattle.std.specs.Prelude.{◌≡◌, ◌<◌, ◌+◌, ◌^◌, ◌==◌, ℕ, List, [], None, Some, OnOk, IfOk};
ghost use Rattle.std.specs.Prelude.{length, slice_index, if◌then◌else◌};
ghost use Rattle.std.specs.BTreeMap.{get, keys};
ghost use Rattle.std.specs.Cmp.Lexicographic.{slice_cmp};
ghost use Rattle.std.specs.Ordering.{nat_cmp};
ghost use Rattle.std.specs.Str.{bytes_eq};
ghost use Rattle.ng_forecast.specs.Hooks.{AreKept, hook_count};
ghost use Rattle.ng_forecast.specs.Text.{with_name};

use ng_base::{Name, NoMemory};
use std::alloc::Global;
use std::collections::BTreeMap;

/// How many packets go to the reader by each hook.
#[derive(Drop)]
pub(crate) struct HookCounts {
    // The hooks, in the order in which they first came.
    names: Vec<Name>,
    // How many packets go by each of them.
    counts: Vec<u64>,
    // Where each hook stands among them.
    pub(crate) places: BTreeMap<Name, usize>,
    // Where a hook is looked for first: copies leave in the order of hooks, so the next one comes after the last.
    next: usize,
}

/// No hook so far.
pub(crate) fn no_hooks(alloc: Global) -> HookCounts
    ensures kept { AreKept result }
    ensures counts { (name : List ℕ) → hook_count result name ≡ 0 }
    ensures names { keys result.places ≡ [] }
{
    HookCounts {
        names: Vec::new(alloc),
        counts: Vec::new(alloc),
        places: BTreeMap::new(alloc),
        next: 0,
    }
}

// Where a hook stands, if it came before.
fn find(hooks: &HookCounts, hook: &Name) -> Option<usize>
    requires { AreKept hooks.now }
    ensures { result ≡ get (slice_cmp nat_cmp) hooks.now.places hook.now }
{
    if let Some(name) = hooks.names.get(hooks.next) {
        if *name == *hook {
            return Some(hooks.next);
        }
    }
    hooks.places.get(hook).copied()
}

// A hook that comes for the first time, with no packets so far: where it stands.
fn enter(hooks: &mut HookCounts, hook: &Name) -> Result<usize, NoMemory>
    requires kept { AreKept hooks.old }
    requires new { get (slice_cmp nat_cmp) hooks.old.places hook.now ≡ None }
    ensures kept { OnOk result (AreKept hooks.new) }
    ensures place { IfOk result (λ place. get (slice_cmp nat_cmp) hooks.new.places hook.now ≡ Some place) }
    ensures counts { OnOk result ((name : List ℕ) → hook_count hooks.new name ≡ hook_count hooks.old name) }
    ensures names { OnOk result (keys hooks.new.places ≡ with_name hook.now (keys hooks.old.places)) }
{
    let place = hooks.names.len();
    hooks.names.push(*hook)?;
    hooks.counts.push(0)?;
    hooks.places.insert(*hook, place)?;
    Ok(place)
}

// Where a hook stands, whether it came before or not.
fn place_of(hooks: &mut HookCounts, hook: &Name) -> Result<usize, NoMemory>
    requires { AreKept hooks.old }
    ensures kept { OnOk result (AreKept hooks.new) }
    ensures place { IfOk result (λ place. get (slice_cmp nat_cmp) hooks.new.places hook.now ≡ Some place) }
    ensures counts { OnOk result ((name : List ℕ) → hook_count hooks.new name ≡ hook_count hooks.old name) }
    ensures names { OnOk result (keys hooks.new.places ≡ with_name hook.now (keys hooks.old.places)) }
{
    if let Some(place) = find(hooks, hook) {
        return Ok(place);
    }
    enter(hooks, hook)
}

// One more at a place.
fn count_at(counts: &mut Vec<u64>, place: usize)
    requires in_bounds { place < length counts.old.items }
    requires room { slice_index counts.old.items place + 1 < 2 ^ 64 }
    ensures counts { (k : ℕ)
        → slice_index counts.new.items k ≡ (if k == place then 1 else 0) + slice_index counts.old.items k }
    ensures many { length counts.new.items ≡ length counts.old.items }
{
    counts[place] += 1;
}

/// One more for a hook.
///
/// # Errors
/// `NoMemory` where memory ran out, and for nothing else. Nothing is said of the hooks then.
pub(crate) fn count_hook(hooks: &mut HookCounts, hook: &Name) -> Result<(), NoMemory>
    requires kept { AreKept hooks.old }
    requires room { hook_count hooks.old hook.now + 1 < 2 ^ 64 }
    ensures kept { OnOk result (AreKept hooks.new) }
    ensures count { OnOk result ((name : List ℕ)
        → hook_count hooks.new name ≡ (if bytes_eq name hook.now then 1 else 0) + hook_count hooks.old name) }
    ensures names { OnOk result (keys hooks.new.places ≡ with_name hook.now (keys hooks.old.places)) }
{
    let place = place_of(hooks, hook)?;
    count_at(&mut hooks.counts, place);
    hooks.next = place + 1;
    Ok(())
}

impl HookCounts {
    /// How many packets go by the hook that stands there: none where no hook does.
    pub(crate) fn count(&self, place: usize) -> u64
        ensures { result ≡ slice_index self.now.counts.items place }
    {
        match self.counts.get(place) {
            Some(count) => *count,
            None => 0,
        }
    }
}
