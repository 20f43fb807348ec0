//! What knows why a progress could not be saved.

use kmip_ttlv::NoMemory;
use std::alloc::Global;

/// What knows why a progress could not be saved.
pub trait Unsaved {
    /// Why it could not be saved last, in the words of the system; none if it could.
    ///
    /// # Errors
    /// If memory runs out.
    fn why(&self, alloc: Global) -> Result<Option<String>, NoMemory>;
}
