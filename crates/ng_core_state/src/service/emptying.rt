// The lists of an outcome are gone through, and keep their memory for the next one.
ghost use Rattle.std.specs.Prelude.{◌≡◌, [], reverse};
ghost use Rattle.ng_machine.specs.Outcome.{nothing};

use ng_base::{Errno, Sequence};
use ng_machine::Outcome;
use std::alloc::Global;
use std::mem;

/// Takes the values out of a list, the last one first, in its memory.
pub fn take_backwards<T>(alloc: Global, list: &mut Sequence<T>) -> Vec<T>
    ensures values { result.items ≡ reverse list.old }
    ensures left { list.new ≡ [] }
{
    let mut values = mem::replace(list, Sequence::new(alloc)).into_vec();
    values.reverse();
    values
}

// Drops the values of a list.
fn clear_list<T: Drop>(alloc: Global, list: &mut Sequence<T>)
    ensures { list.new ≡ [] }
{
    if list.as_slice().is_empty() {
        return;
    }
    let mut values = mem::replace(list, Sequence::new(alloc)).into_vec();
    values.clear();
    *list = Sequence::from_vec(values);
}

/// Leaves nothing of an outcome but the memory of its lists.
pub fn clear(alloc: Global, outcome: &mut Outcome)
    ensures { outcome.new ≡ nothing }
{
    clear_list(alloc, &mut outcome.sends);
    clear_list(alloc, &mut outcome.leaves);
    clear_list(alloc, &mut outcome.counts);
    outcome.answer = None;
    outcome.learn = None;
    outcome.errno = Errno::NONE;
}
