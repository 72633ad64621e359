// What each row of a table is compared by, in one place.
use std::process::Abort;

/// These are the bytes that are wanted.
pub(super) fn same(rt: &impl Abort, found: &[u8], wanted: &[u8], row: &str) {
    assert_eq!(rt; found, wanted, "{row:?}");
}

/// It holds.
pub(super) fn holds(rt: &impl Abort, does: bool, row: &str) {
    assert!(rt; does, "{row:?}");
}
