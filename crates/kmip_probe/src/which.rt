//! One of the two names of a probe.
use Which::{First, Second};

/// One of the two names of a probe.
#[derive(Clone, Copy)]
pub enum Which {
    /// The prefix and `-1`.
    First,
    /// The prefix and `-2`.
    Second,
}
