//! A Protocol Version of KMIP.

/// A Protocol Version of KMIP.
#[derive(Clone, Copy)]
pub struct ProtocolVersion {
    /// Protocol Version Major, 0 to 255.
    pub major: u8,
    /// Protocol Version Minor, 0 to 255.
    pub minor: u8,
}
