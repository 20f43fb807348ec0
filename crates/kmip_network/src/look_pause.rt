//! How long `look` waits before it asks again, and when it gives up.

use crate::last_answer::LastAnswer;
use kmip_look::Pause;
use kmip_runs::{next_wait, wait_within};
use std::time::Clock;

/// Waits before a message is sent again, longer each time until an answer comes, as `run` does. It gives
/// up where no answer came for some time.
#[derive(Drop)]
pub(crate) struct LookPause<'a, C> {
    clock: C,
    last: &'a LastAnswer,
    /// The first wait and the last one, in milliseconds.
    first: u64,
    wait: u64,
    /// After how many seconds without an answer it gives up; 0 for never.
    most: u64,
    has_given_up: bool,
}

impl<'a, C: Clock> LookPause<'a, C> {
    /// A pause with its first wait in milliseconds, 0 for none ever, and with the seconds without an
    /// answer after which it gives up, 0 for never.
    pub(crate) fn new(clock: C, last: &'a LastAnswer, first: u64, most: u64) -> Self {
        LookPause {
            clock,
            last,
            first,
            wait: 0,
            most,
            has_given_up: false,
        }
    }

    /// Whether it has given up.
    pub(crate) fn has_given_up(&self) -> bool {
        self.has_given_up
    }
}

impl<'a, C: Clock> Pause for LookPause<'a, C> {
    ghost has_given_up = { λ pause. pause.has_given_up };

    fn again(&mut self) -> bool {
        let before = if self.last.take_new() { 0 } else { self.wait };
        self.wait = next_wait(before, self.first, false);
        self.has_given_up = !wait_within(&self.clock, self.wait, self.last.at(), self.most);
        !self.has_given_up
    }
}
