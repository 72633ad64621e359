// Why an input isn't fed.
use ng_machine::Fed;
use thiserror::Error;

/// Why an input isn't fed.
#[derive(Clone, Copy, Debug, PartialEq, Eq, Error)]
pub enum FeedFault {
    /// The machine doesn't feed it now, for the first cause that holds.
    #[error(transparent)]
    Not(Fed),
    /// Memory ran out.
    #[error("out of memory")]
    NoMemory,
}
