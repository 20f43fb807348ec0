//! The attributes that a key is made with.
ghost use Rattle.std.specs.Prelude.{◌≡◌, IfOk};

use kmip_ttlv::Text;
use std::alloc::{AllocError, Global};

/// The attributes that a key is made with.
#[derive(Drop)]
pub struct KeyAttrs {
    /// 1 to 64 bytes, each 21 to 7E hexadecimal.
    pub name: Text,
    /// Cryptographic Algorithm: AES or HMAC-SHA256.
    pub algorithm: u32,
    /// Cryptographic Length in bits: 128, 192 or 256 for AES, 256 for HMAC-SHA256.
    pub length: i32,
    /// Cryptographic Usage Mask, 1 to 1FF hexadecimal.
    pub usage: i32,
}

impl KeyAttrs {
    /// A copy of the attributes.
    ///
    /// # Errors
    /// Where there is no memory for it.
    pub fn copied(&self, alloc: Global) -> Result<Self, AllocError>
        ensures { IfOk result (λ copy. copy ≡ self.now) }
    {
        let name = Text::copied(alloc, self.name.as_str())?;
        Ok(KeyAttrs {
            name,
            algorithm: self.algorithm,
            length: self.length,
            usage: self.usage,
        })
    }
}
