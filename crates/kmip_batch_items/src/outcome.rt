//! How an operation went.
use kmip_objects::{Attrs, Texts};
use kmip_ttlv::Text;

/// How an operation went.
///
/// Source: KMIP 2.1, Operations, and Message Data, Result Status.
#[derive(Drop)]
pub enum Outcome {
    /// The identifier of the new key.
    Created(Text),
    /// The identifiers of the objects that were found.
    Located(Texts),
    /// The identifier of the object, and its attributes.
    Attributes(Text, Attrs),
    /// The identifier of the object.
    Activated(Text),
    /// The identifier of the object.
    Revoked(Text),
    /// The identifier of the object.
    Destroyed(Text),
    /// The Result Reason, where there is one.
    Failed(Option<u32>),
}
