//! What `list` is to do.
use crate::format::Format;

/// What `list` is to do.
#[derive(Debug, PartialEq, Eq, Drop)]
pub struct ListOptions {
    /// The path of the plan.
    pub plan: String,
    /// The path of the progress.
    pub progress: String,
    /// In which form what came of it is printed.
    pub format: Format,
}
