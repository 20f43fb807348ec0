//! What a reply says.

use crate::outcome::Outcome;
use kmip_ttlv::Bytes;

/// The server's answer to one question.
#[derive(Drop)]
pub struct Reply {
    /// The operation that was asked, where the server could tell.
    pub operation: Option<u32>,
    /// The Unique Batch Item ID of the request, at most 128 bytes, where it had one.
    pub id: Option<Bytes>,
    /// How the operation went.
    pub outcome: Outcome,
}
