//! What a line says.

/// What a line says.
#[derive(Clone, Copy)]
pub enum Judged {
    /// Nothing: the line is empty.
    Empty,
    /// More than a message may have.
    Long,
    /// No message: the digits are odd in number, or a byte is no digit.
    NotHex,
    /// A message, which the digits spell.
    Message,
}
