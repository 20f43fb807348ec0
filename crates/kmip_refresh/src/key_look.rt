//! What the server said about a key that the progress file knows.

use crate::agreement::Agreement;
use kmip_look::Looked;

/// What the server said about a key that the progress file knows.
#[derive(Drop)]
pub struct KeyLook {
    /// The place of the key in the plan, from 0.
    pub place: usize,
    /// What the server said.
    pub looked: Looked,
    /// Whether that agrees with the progress file.
    pub agreement: Agreement,
}
