//! What counts the exchanges of a run.

use kmip_client::Client;
use kmip_tally::RunTally;
use kmip_ttlv::NoMemory;
use std::alloc::Global;

/// What counts the exchanges of a run.
pub trait Counting {
    /// The counts of a run that ended where the client is this one.
    ///
    /// # Errors
    /// If memory runs out.
    fn tally(&mut self, alloc: Global, client: &Client<'_>) -> Result<RunTally, NoMemory>;
}
