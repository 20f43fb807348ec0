//! What is known of one key, at a glance.

use crate::verdict::Verdict;

/// What is known of a key, as far as it decides whether a run makes progress. Takes no memory.
#[derive(Clone, Copy)]
pub struct Standing {
    /// The number of its steps that are known to have taken effect.
    pub done: usize,
    /// Whether the identifier of its object is known.
    pub is_identified: bool,
    pub verdict: Verdict,
    /// Whether the last answer about it reported its status.
    pub is_told: bool,
}
