//! An operation with what it is asked of.
ghost use Rattle.std.specs.Prelude.{◌≡◌};
ghost use Rattle.kmip_batch_items.specs.Operations.{ask_operation};

use crate::operation::Operation;
use kmip_objects::{Attrs, KeyAttrs};
use kmip_ttlv::Text;

/// An operation with what it is asked of.
///
/// Source: KMIP 2.1, Operations.
#[derive(Drop)]
pub enum Ask {
    /// Make a symmetric key with these attributes.
    Create(KeyAttrs),
    /// The identifiers of the objects that have all the given attributes.
    Locate {
        /// The Storage Status Mask: which objects are searched.
        mask: Option<i32>,
        /// The attributes that are given.
        filter: Attrs,
    },
    /// The attributes of the object with this identifier.
    GetAttributes(Text),
    /// From Pre-Active to Active.
    Activate(Text),
    /// From Active to Deactivated, for the reason of this code.
    Revoke(Text, u32),
    /// From Pre-Active or Deactivated to Destroyed.
    Destroy(Text),
}

impl Ask {
    /// The operation that is asked.
    pub fn operation(&self) -> Operation
        ensures { result ≡ ask_operation self.now }
    {
        match self {
            Ask::Create(_) => Operation::Create,
            Ask::Locate { .. } => Operation::Locate,
            Ask::GetAttributes(_) => Operation::GetAttributes,
            Ask::Activate(_) => Operation::Activate,
            Ask::Revoke(..) => Operation::Revoke,
            Ask::Destroy(_) => Operation::Destroy,
        }
    }
}
