// Why a core isn't closed.
ghost use Rattle.std.specs.Prelude.{◌≡◌};
ghost use Rattle.ng_machine.specs.story.Closing.{refusal_below};

use thiserror::Error;

/// Why a core isn't closed: fewer items were applied than may be, and there is more to do. The first of these, in this order,
/// that holds.
#[derive(Clone, Copy, Debug, PartialEq, Eq, Error)]
pub enum Unclosed {
    /// So many items are pending.
    #[error("{0} items are pending")]
    Pending(u64),
    /// Nothing is pending, and so many inputs are unfed.
    #[error("{0} inputs are unfed")]
    Unfed(u64),
}

/// Why a core isn't closed, by whether as many items were applied as may be, the number of pending items, and the number of
/// unfed inputs: `None` where it is closed.
pub fn refusal_to_close(spent: bool, pending: u64, unfed: u64) -> Option<Unclosed>
    ensures { result ≡ refusal_below spent pending unfed }
{
    if spent {
        None
    } else if pending > 0 {
        Some(Unclosed::Pending(pending))
    } else if unfed > 0 {
        Some(Unclosed::Unfed(unfed))
    } else {
        None
    }
}
