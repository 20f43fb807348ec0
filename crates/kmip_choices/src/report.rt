//! What the text of the end of a run says of each key.

/// What the text of the end of a run says of each key.
#[derive(Clone, Copy, Debug, PartialEq, Eq)]
pub enum Report {
    /// How each key stands.
    Plain,
    /// How each key stands, and the identifier of its object, as `list` prints it.
    Identifiers,
}
