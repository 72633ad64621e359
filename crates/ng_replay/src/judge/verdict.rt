// What is said of a journal.

/// What is said of a journal, for a run that was begun and its inputs.
#[derive(Clone, Copy, Debug, PartialEq, Eq)]
pub enum Verdict {
    /// Each event is allowed where it stands, and the journal is whole.
    Yes,
    /// The event of this number, from 1, is the first that isn't allowed; where all are allowed and the journal isn't whole it
    /// is the number behind the last.
    No { at: u64 },
}
