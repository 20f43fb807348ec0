//! One object of the store.
ghost use Rattle.std.specs.Prelude.{◌≡◌, IfOk};

use kmip_objects::{KeyAttrs, KeyState};
use kmip_ttlv::{Bytes, Text};
use std::alloc::{AllocError, Global};

/// An object: its identifier, what it was made with, its state and its key material.
#[derive(Drop)]
pub struct Row {
    /// The Unique Identifier: the decimal number of the row's place, from 1.
    pub uid: Text,
    pub attrs: KeyAttrs,
    pub state: KeyState,
    /// The bytes of the key.
    pub material: Bytes,
}

impl Row {
    /// A copy of the row.
    ///
    /// # Errors
    /// Where there is no memory for it.
    pub fn copied(&self, alloc: Global) -> Result<Self, AllocError>
        ensures { IfOk result (λ copy. copy ≡ self.now) }
    {
        let uid = Text::copied(alloc, self.uid.as_str())?;
        let attrs = self.attrs.copied(alloc)?;
        let material = Bytes::copied(alloc, self.material.as_slice())?;
        Ok(Row {
            uid,
            attrs,
            state: self.state,
            material,
        })
    }
}
