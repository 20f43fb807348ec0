//! What a run has spent so far.

/// How often a run has asked so far, with what success, and for how long.
#[derive(Clone, Copy, Debug, PartialEq, Eq)]
pub struct Spent {
    /// How many exchanges were made.
    pub exchanges: usize,
    /// How many of them brought no reply that can be read.
    pub lost: usize,
    /// How many questions were refused.
    pub refused: usize,
    /// How many whole seconds it took.
    pub seconds: u64,
}
