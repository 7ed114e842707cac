//! What tests assert.

use std::process::Abort;

/// Expects that it is so.
pub(crate) fn expect<R: Abort>(rt: &R, holds: bool, what: &str) {
    assert!(rt; holds, "{what}");
}

/// Expects this count.
pub(crate) fn expect_count<R: Abort>(rt: &R, found: u32, wanted: u32) {
    assert_eq!(rt; found, wanted);
}
