//! When a server answered last.

use std::cell::Cell;
use std::time::{Clock, Instant};

/// When a server answered last, which the observer of a link notes and a pause reads.
#[derive(Drop)]
pub(crate) struct LastAnswer {
    /// The time of the last answer, or of the beginning; none where the clock did not tell it.
    at: Cell<Option<Instant>>,
    /// Whether an answer came since this was asked last.
    is_new: Cell<bool>,
}

impl LastAnswer {
    /// None came yet: the time begins now.
    pub(crate) fn none_yet(clock: &impl Clock) -> Self {
        LastAnswer {
            at: Cell::new(Instant::now(clock).ok()),
            is_new: Cell::new(false),
        }
    }

    /// An answer came now.
    pub(crate) fn note(&self, clock: &impl Clock) {
        self.at.set(Instant::now(clock).ok());
        self.is_new.set(true);
    }

    /// The time of the last answer, or of the beginning.
    pub(crate) fn at(&self) -> Option<Instant> {
        self.at.get()
    }

    /// Whether an answer came since this was called last.
    pub(crate) fn take_new(&self) -> bool {
        self.is_new.replace(false)
    }
}
