//! Assertions on what is borrowed: written out in a function that holds owned values they are dear to
//! check.

use kmip_disk::{MemoryDisk, MemoryFault, WholeFile};
use std::alloc::Global;
use std::process::Abort;

/// This text stands in the file; none where it is absent.
pub fn assert_stands(
    rt: &impl Abort,
    alloc: Global,
    file: &WholeFile<MemoryDisk>,
    text: Option<&str>,
    case: usize,
) -> Result<(), MemoryFault> {
    let found = file.read(alloc)?;
    let is_same = match (&found, text) {
        (Some(found), Some(text)) => found.as_slice() == text.as_bytes(),
        (None, None) => true,
        _ => false,
    };
    assert!(rt; is_same, "at {case}");
    Ok(())
}
