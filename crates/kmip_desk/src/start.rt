//! What a run begins with.

use kmip_client::Client;

/// What a run begins with.
#[derive(Drop)]
pub(crate) struct Start<'a> {
    /// A client that knows what the progress says, or nothing.
    pub(crate) client: Client<'a>,
    /// At how many keys the run looks first; none if it does not look.
    pub(crate) looked_at: Option<usize>,
}
