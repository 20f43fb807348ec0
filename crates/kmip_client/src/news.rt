//! What has come of a reply.

/// What has come of a reply.
#[derive(Clone, Copy, Debug)]
pub enum News {
    /// An identifier is known that was not, or more steps.
    Grew,
    /// Neither the identifier nor the count of steps is new.
    Same,
    /// The server has not done it.
    Refused,
    /// The key is in conflict now.
    Clash,
}
