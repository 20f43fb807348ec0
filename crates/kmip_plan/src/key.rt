//! One key of a plan.

use crate::target::Target;
use kmip_objects::KeyAttrs;

/// A key that is to be made, and how far it is to go.
#[derive(Drop)]
pub struct Key {
    /// What the key is made with.
    pub attrs: KeyAttrs,
    /// How far it is to go.
    pub target: Target,
    /// The Revocation Reason Code of its Revoke; 0 where the target has none.
    pub reason: u32,
}
