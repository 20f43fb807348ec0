//! Whether the server agrees with what a progress file says about a key.

/// Whether the server agrees with what a progress file says about a key.
#[derive(Clone, Copy, Debug, PartialEq, Eq)]
pub enum Agreement {
    /// The server reported an object with the key's name, the identifier of the file and the plan's
    /// attributes, in a state that is reached after at least the steps that the file counts.
    Agrees,
    /// The server did not say: it sent no reply, a refusal, or a reply that can't be read.
    Unanswered,
    /// The file counts the key as destroyed, and the server has no object with its name. Some servers
    /// forget destroyed objects.
    Gone,
    /// Anything else.
    Contradicts,
}
