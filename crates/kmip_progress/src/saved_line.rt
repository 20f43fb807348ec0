//! What the line of a key in a saved text says.

/// What the line of a key in a progress text says, and its length.
#[derive(Clone, Copy)]
pub struct SavedLine {
    /// The number of bytes, with the line feed.
    pub size: usize,
    /// The number of steps that it says are done.
    pub done: usize,
    /// Whether it has an identifier.
    pub is_identified: bool,
}
