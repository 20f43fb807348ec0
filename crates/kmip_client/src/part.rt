//! One question of a message.

/// One question of a message.
#[derive(Clone, Copy)]
pub struct Part {
    /// The place of the key that it is about, from 0.
    pub key: usize,
    /// The number of the operation that it asks.
    pub operation: u32,
}
