//! What a reply was, that a client has learnt from.
use crate::news::News;

/// What a reply was, that a client has learnt from.
#[derive(Clone, Copy)]
pub struct Heard {
    /// The place of the key that it is about, from 0.
    pub key: usize,
    /// The number of the operation that it answers.
    pub operation: u32,
    pub news: News,
}
