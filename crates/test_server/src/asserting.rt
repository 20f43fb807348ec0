//! Assertions on what is borrowed: written out in a function that holds owned values they are dear to
//! check.

use std::process::Abort;

/// The text is the wanted one; the case says which row it is of.
pub fn assert_text(rt: &impl Abort, text: &str, wanted: &str, case: &str) {
    assert_eq!(rt; text, wanted, "{case}");
}

/// The number is the wanted one.
pub fn assert_number(rt: &impl Abort, number: usize, wanted: usize, case: &str) {
    assert_eq!(rt; number, wanted, "{case}");
}

/// The bytes are the wanted ones.
pub fn assert_bytes(rt: &impl Abort, bytes: &[u8], wanted: &[u8], case: &str) {
    assert_eq!(rt; bytes, wanted, "{case}");
}
