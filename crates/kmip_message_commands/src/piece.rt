//! What one look into the reader's buffer found.
use crate::next_line::NextLine;

/// What one look into the reader's buffer found.
#[derive(Clone, Copy)]
pub(crate) enum Piece {
    /// No line feed, or no bytes since the read was interrupted. The buffer is used up.
    Middle,
    /// The line's end, with the flag of `NextLine`.
    Last { has_more: bool },
    /// No byte is left.
    Nothing,
}
