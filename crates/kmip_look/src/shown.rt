//! The numbers that Get Attributes told of an object.
ghost use Rattle.std.specs.Prelude.{◌≡◌};
ghost use Rattle.kmip_look.specs.Standings.{shown_of};

use kmip_objects::Attrs;

/// The numbers that Get Attributes told of an object, each where it was told.
///
/// Source: KMIP 2.1, Operations, Get Attributes; Object Attributes.
#[derive(Clone, Copy)]
pub struct Shown {
    /// Object Type, by its number.
    pub object_type: Option<u32>,
    /// Cryptographic Algorithm, by its number.
    pub algorithm: Option<u32>,
    /// Cryptographic Length in bits.
    pub length: Option<i32>,
    /// Cryptographic Usage Mask.
    pub usage: Option<i32>,
    /// State, by its number.
    pub state: Option<u32>,
}

/// The numbers in these attributes.
pub(crate) fn shown_of(told: &Attrs) -> Shown
    ensures { result ≡ shown_of told.now }
{
    Shown {
        object_type: told.object_type,
        algorithm: told.algorithm,
        length: told.length,
        usage: told.usage,
        state: told.state,
    }
}
