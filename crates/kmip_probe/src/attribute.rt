//! An attribute that Get Attributes tells.
ghost use Rattle.std.specs.Prelude.{◌≡◌};
ghost use Rattle.kmip_probe.specs.Telling.{attribute_text};

/// An attribute that Get Attributes tells.
///
/// Source: KMIP 2.1, Object Attributes.
#[derive(Clone, Copy)]
pub enum Attribute {
    ObjectType,
    Name,
    CryptographicAlgorithm,
    CryptographicLength,
    CryptographicUsageMask,
    State,
}

impl Attribute {
    /// The attribute's name.
    pub fn name(self) -> &'static str
        ensures { result.now ≡ attribute_text self }
    {
        match self {
            Attribute::ObjectType => "Object Type",
            Attribute::Name => "Name",
            Attribute::CryptographicAlgorithm => "Cryptographic Algorithm",
            Attribute::CryptographicLength => "Cryptographic Length",
            Attribute::CryptographicUsageMask => "Cryptographic Usage Mask",
            Attribute::State => "State",
        }
    }
}
