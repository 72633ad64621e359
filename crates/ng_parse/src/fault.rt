// Why a text is no form.
ghost use Rattle.std.specs.Prelude.{◌≡◌};
ghost use Rattle.ng_base.specs.declared.memory.Stop.TheVariants.{Fault as stop_at};
ghost use Rattle.ng_parse.specs.Faults.{fault_at, first_of, place_fault, place_of, rank};

use ng_base::Stop;
use thiserror::Error;

/// Why a text is no form of a shape, and where: the place is counted in bytes of the text from 0, and the
/// end of the text is a place.
#[derive(Clone, Copy, Debug, PartialEq, Eq, Error)]
pub enum TextFault {
    /// Here stands something that can't stand here, or nothing where something must.
    #[error("unexpected")]
    Unexpected(usize),
    /// The structure has no field of the name that stands here.
    #[error("unknown field")]
    UnknownField(usize),
    /// A field or an element that was given before is given here again.
    #[error("field twice")]
    Twice(usize),
    /// What stands here is too great, too small, too long, or a string with a NUL.
    #[error("out of range")]
    Range(usize),
    /// Here stands an element beyond the length of its array, or begins an array with more elements than
    /// the count that was given for it.
    #[error("too many")]
    TooMany(usize),
    /// Memory was asked for and there was none.
    #[error("out of memory")]
    NoMemory,
}

impl TextFault {
    /// Where the fault is; `None` where memory ran out.
    pub fn place(&self) -> Option<usize>
        ensures { result ≡ place_of self.now }
    {
        match self {
            TextFault::Unexpected(place)
            | TextFault::UnknownField(place)
            | TextFault::Twice(place)
            | TextFault::Range(place)
            | TextFault::TooMany(place) => Some(*place),
            TextFault::NoMemory => None,
        }
    }
}

/// What is wrong at a place of a text.
#[derive(Clone, Copy, Debug, PartialEq, Eq)]
pub enum Why {
    Unexpected,
    UnknownField,
    Twice,
    Range,
    TooMany,
}

/// A fault as it is met: with the number of bytes from it to the end of the text.
#[derive(Clone, Copy, Debug, PartialEq, Eq)]
pub struct Fault {
    pub why: Why,
    pub left: usize,
}

impl From<Fault> for Stop<Fault> {
    ghost from_gives = { λ fault stop. stop ≡ stop_at fault };

    fn from(fault: Fault) -> Self {
        Stop::Fault(fault)
    }
}

/// The fault where this rest of a text begins.
pub fn fault_at(why: Why, text: &[u8]) -> Fault
    ensures { result ≡ fault_at why text.now }
{
    let left = text.len();
    Fault { why, left }
}

/// The order of faults at one place.
fn rank(why: Why) -> u8
    ensures { result ≡ rank why }
{
    match why {
        Why::Unexpected => 0,
        Why::UnknownField => 1,
        Why::Twice => 2,
        Why::Range => 3,
        Why::TooMany => 4,
    }
}

/// Of two faults, the second at the place of the first or behind it, the one that comes first.
pub fn first_of(fault: Fault, later: Fault) -> Fault
    ensures { result ≡ first_of fault later }
{
    if later.left == fault.left && rank(later.why) < rank(fault.why) {
        later
    } else {
        fault
    }
}

/// The fault in a text of so many bytes.
pub fn place_fault(len: usize, fault: Fault) -> TextFault
    ensures { result ≡ place_fault len fault }
{
    let place = len.saturating_sub(fault.left);
    match fault.why {
        Why::Unexpected => TextFault::Unexpected(place),
        Why::UnknownField => TextFault::UnknownField(place),
        Why::Twice => TextFault::Twice(place),
        Why::Range => TextFault::Range(place),
        Why::TooMany => TextFault::TooMany(place),
    }
}
