//! Assertions on what is borrowed: written out in a function that holds owned values they are dear to
//! check.

use std::process::Abort;

/// The condition holds.
pub fn assert_true(rt: &impl Abort, condition: bool, case: &str) {
    assert!(rt; condition, "{case}");
}
