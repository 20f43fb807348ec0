//! Where a text has a fault by which it is not a plan, and why it is one.

/// Where a text has a fault by which it is not a plan, and why it is one.
#[derive(Drop)]
pub struct Explanation {
    /// The line of the text, from 1, if it can be told.
    pub line: Option<usize>,
    /// A sentence without the place, such as `there is no length: a key needs ..`.
    pub why: String,
}
