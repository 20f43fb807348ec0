//! What a crash leaves in the place of the file that keeps what is known.

/// What a crash leaves in the place of the file that keeps what is known, where several may be left.
#[derive(Clone, Copy, Debug)]
pub enum Left {
    /// What the last rename replaced. A crash may undo that until the folder is synced.
    Old,
    /// What a read finds.
    New,
    /// A text that is cut off. The protocol of the file leaves none.
    Torn,
}
