// Items that are applied or dropped, and once.
use ng_base::Event;
use ng_journal::kept::Journal;
use ng_machine::Totals;
use std::alloc::Global;
use std::test::Fail;

// The number of an item that is applied.
fn applied(event: Event) -> Option<u64> {
    match event {
        Event::Apply { id } => Some(id.0),
        _ => None,
    }
}

// Whether the applied items of a journal are different ones among the first `all`, and as many as were done or dropped late.
fn are_once(alloc: Global, journal: &Journal, all: u64, most: u64) -> Result<bool, Fail> {
    let mut seen = vec![in alloc; false; 2000]?;
    let mut count = 0u64;
    for event in journal.events() {
        if let Some(id) = applied(event) {
            let Some(mark) = seen.get_mut((id as usize).min(1999)) else {
                return Ok(false);
            };
            if *mark || id > all || id == 0 {
                return Ok(false);
            }
            *mark = true;
            count = count.saturating_add(1);
        }
    }
    Ok(count == most)
}

fn sum(a: u64, b: u64) -> u64 {
    a.saturating_add(b)
}

/// Whether each item was applied or dropped, and once, by the journal and the totals.
pub(super) fn are_accounted(
    alloc: Global,
    journal: &Journal,
    totals: &Totals,
) -> Result<bool, Fail> {
    let most = sum(totals.applied, totals.hook_gone);
    let all = sum(most, sum(totals.node_gone, totals.budget));
    are_once(alloc, journal, all, most)
}
