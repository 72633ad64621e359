// Whether a run stopped at its limit.
ghost use Rattle.std.specs.Prelude.{◌≡◌};
ghost use Rattle.std.specs.List.{list_any};
ghost use Rattle.ng_call.specs.Writes.{is_stop};

use ng_base::Event;
use ng_journal::kept::Journal;

fn is_stop(event: Event) -> bool
    ensures { result ≡ is_stop event }
{
    match event {
        Event::Stop => true,
        _ => false,
    }
}

/// Whether the run of a journal stopped at its limit of applied items: the journal has a Stop.
pub fn is_stopped(journal: &Journal) -> bool
    ensures { result ≡ list_any is_stop journal.now.items }
{
    for event in journal.events() {
        if is_stop(event) {
            return true;
        }
    }
    false
}
