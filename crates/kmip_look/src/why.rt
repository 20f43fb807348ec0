//! Why it is not told how a key stands.

/// Why nothing was told of a key at last. Where the key is told, it is what stood in the way before.
#[derive(Clone, Copy)]
pub enum Why {
    /// It was not asked.
    NotAsked,
    /// No reply to the question came.
    NoReply,
    /// The server has not done it; its Result Reason, where there was one.
    Refused(Option<u32>),
    /// What came can't be read, or says nothing of the key.
    Unreadable,
}
