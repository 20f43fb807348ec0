//! What a probe finds.
use crate::flaw::Flaw;

/// What the answers say of a premise of the theorem.
#[derive(Drop)]
pub enum Finding {
    /// The server keeps it.
    Kept,
    /// It does not.
    Broken(Flaw),
    /// It could not be told: a reply that would tell has not come, or it refused what was asked.
    Untold,
}
