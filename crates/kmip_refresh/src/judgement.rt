//! The judgement on all keys that a progress file knows.

/// The judgement on all keys that a progress file knows.
#[derive(Clone, Copy, Debug, PartialEq, Eq)]
pub enum Judgement {
    /// The server agrees with the progress file.
    Agreed,
    /// The server did not say it of some key.
    Unanswered,
    /// The server contradicts the progress file.
    Contradicted,
}
