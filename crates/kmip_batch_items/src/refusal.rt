//! Why a question is refused, with what its answer is to carry.

use crate::MessageFault;
use kmip_ttlv::Bytes;

/// Why a request was refused, with what its answer is to carry.
#[derive(Drop)]
pub struct Refusal {
    /// The first thing that is wrong with the request.
    pub fault: MessageFault,
    /// The request's Operation, where it and the Unique Batch Item ID were lawful.
    pub operation: Option<u32>,
    /// The request's Unique Batch Item ID, where it had one and both were lawful.
    pub id: Option<Bytes>,
}
