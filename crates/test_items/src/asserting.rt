//! Assertions on what is borrowed: written out in a function that holds owned values they are dear to
//! check.

use kmip_frames::{FrameFault, Framer};
use kmip_ttlv::TtlvFault;
use std::process::Abort;

/// The text is the wanted one; the case says which row it is of.
pub fn assert_text(rt: &impl Abort, text: &str, wanted: &str, case: &str) {
    assert_eq!(rt; text, wanted, "{case}");
}

/// The number is the wanted one.
pub fn assert_number(rt: &impl Abort, number: usize, wanted: usize, case: &str) {
    assert_eq!(rt; number, wanted, "{case}");
}

/// The size of an item, or the fault, is the wanted one.
pub fn assert_size(
    rt: &impl Abort,
    size: Result<usize, TtlvFault>,
    wanted: Result<usize, TtlvFault>,
    case: &str,
) {
    assert_eq!(rt; parts_of(size), parts_of(wanted), "{case}");
}

/// Whether the size of an item, or the fault, is the wanted one.
pub fn is_size(size: Result<usize, TtlvFault>, wanted: Result<usize, TtlvFault>) -> bool {
    parts_of(size) == parts_of(wanted)
}

/// A size, or the number of a fault, with its offset.
fn parts_of(size: Result<usize, TtlvFault>) -> (Result<usize, u32>, Option<usize>) {
    match size {
        Ok(size) => (Ok(size), None),
        Err(fault) => (Err(fault.number()), fault.offset()),
    }
}

/// The condition holds.
pub fn assert_true(rt: &impl Abort, condition: bool, case: &str) {
    assert!(rt; condition, "{case}");
}

/// How many bytes were taken, or the fault, is the wanted one.
pub fn assert_fed(
    rt: &impl Abort,
    taken: Result<usize, FrameFault>,
    wanted: Result<usize, FrameFault>,
    case: &str,
) {
    let taken = taken.map_err(|fault| fault.number());
    let wanted = wanted.map_err(|fault| fault.number());
    assert_eq!(rt; taken, wanted, "{case}");
}

/// The framer holds this many bytes, and wants this many more.
pub fn assert_holds(rt: &impl Abort, framer: &Framer, pending: usize, wants: usize, case: &str) {
    assert_number(rt, framer.pending(), pending, case);
    assert_number(rt, framer.wants(), wants, case);
}
