//! A look before a run.
use kmip_look::Mark;

/// What a look before a run is given.
#[derive(Drop)]
pub struct RunLook<P, O> {
    /// What the ids of its questions have: a mark that no look had before.
    pub mark: Mark,
    /// What waits before a question is sent again.
    pub pause: P,
    /// Is told of each of its exchanges.
    pub observer: O,
}
