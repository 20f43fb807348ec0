//! What the line of a key says, and the formats of the texts.

use crate::known::Known;
use kmip_plan::Target;
use kmip_ttlv::Text;

/// What the line of a key says.
#[derive(Drop)]
pub struct Entry {
    /// The key's name.
    pub name: Text,
    /// How far it was to go when the text was written.
    pub target: Target,
    /// The reason of its Revoke, where the line has one.
    pub reason: Option<u32>,
    /// What was known of it.
    pub known: Known,
}
