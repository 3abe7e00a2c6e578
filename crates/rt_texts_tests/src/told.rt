// What tests say of a call: each asserts in a function of its own, so that a test knows no more behind a call than before it.

use std::process::Abort;

/// Stops where these differ.
pub fn same<T: Drop + PartialEq>(rt: &impl Abort, what: &str, seen: T, wanted: T) {
    assert!(rt; seen == wanted, "{what}");
}

/// Stops where this doesn't hold.
pub fn holds(rt: &impl Abort, what: &str, seen: bool) {
    assert!(rt; seen, "{what}");
}
