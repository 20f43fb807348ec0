//! The bytes of an exchange, as far as they went over a connection.
use std::alloc::Global;

/// The bytes of an exchange, as far as they went over a connection.
#[derive(Drop)]
pub(crate) struct Exchange {
    pub(crate) request: Vec<u8>,
    pub(crate) reply: Vec<u8>,
}

impl Exchange {
    /// One of which nothing went over the connection yet.
    pub(crate) fn new(alloc: Global) -> Self {
        Exchange {
            request: Vec::new(alloc),
            reply: Vec::new(alloc),
        }
    }
}
