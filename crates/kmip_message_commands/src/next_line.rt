//! What `read_line` found.

/// What `read_line` found.
#[derive(Clone, Copy)]
pub enum NextLine {
    /// A line. The flag says whether the reader has bytes after it that it gives without a wait.
    Line { has_more: bool },
    /// The end of the input.
    End,
}
