//! Some exchanges without a reply, one after the other.

use std::time::Instant;

/// Some exchanges without a reply, one after the other.
#[derive(Drop)]
pub(crate) struct Spell {
    /// Why the last one brought no reply, in a sentence, and in a word or two.
    pub(crate) reason: String,
    pub(crate) brief: String,
    /// How many brought none for this reason, one after the other.
    pub(crate) count: u64,
    /// When the first of these began, by the clock.
    pub(crate) began: Option<Instant>,
    /// When the first exchange of the spell ended, by the clock.
    pub(crate) ended: Option<Instant>,
}

impl Spell {
    /// One more exchange brought no reply for the same reason.
    pub(crate) fn with_one_more(self) -> Spell {
        Spell {
            count: self.count.saturating_add(1),
            ..self
        }
    }
}
