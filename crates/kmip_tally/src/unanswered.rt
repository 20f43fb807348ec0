//! Why a look before a run got no answer.

/// Why a look before a run got no answer about some key.
#[derive(Clone, Copy, Debug, PartialEq, Eq)]
pub enum Unanswered {
    /// No reply came.
    NoReply,
    /// The server refused to say.
    Refused,
}
