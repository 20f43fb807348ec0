//! How many keys of a plan are finished, worked on, and in conflict.

/// How many keys of a plan are finished, worked on, and in conflict, by what is known of them.
#[derive(Clone, Copy, Debug, PartialEq, Eq)]
pub struct Standing {
    pub finished: u64,
    pub working: u64,
    pub conflict: u64,
}
