//! What a request asks.

use crate::ask::Ask;
use kmip_ttlv::Bytes;

/// One question to the server.
#[derive(Drop)]
pub struct Request {
    /// The Unique Batch Item ID, at most 128 bytes, where there is one.
    pub id: Option<Bytes>,
    /// What is asked.
    pub ask: Ask,
}
