//! What an exchange of a run brought.

/// What an exchange of a run brought.
#[derive(Clone, Copy)]
pub enum ExchangeNews {
    /// Something known has grown: of a key more steps, an identifier or a conflict, or its status was
    /// reported for the first time since.
    Grew,
    /// Nothing has grown, but each key that was asked about was answered, and another question is
    /// asked about it next.
    Answered,
    /// No reply, a refusal, or an answer that changes nothing for some key that was asked about.
    Nothing,
}
