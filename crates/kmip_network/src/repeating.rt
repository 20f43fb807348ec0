//! How long the look before a run is repeated.

use kmip_runs::wait_within;
use std::time::{Clock, Instant};

/// Repeats a look until none has told of more keys than an earlier one for some time. So a server that replies,
/// but answers nothing that was asked, is given up too.
#[derive(Drop)]
pub(crate) struct Repeating<C> {
    clock: C,
    /// After how many seconds it gives up; 0 for never.
    give_up: u64,
    /// The most keys that one look has told of.
    most: usize,
    /// When that look ended, or the first one began; none if the clock did not tell.
    since: Option<Instant>,
}

impl<C: Clock> Repeating<C> {
    /// The first look begins now.
    pub(crate) fn new(clock: C, give_up: u64) -> Self {
        let since = Instant::now(&clock).ok();
        Repeating {
            clock,
            give_up,
            most: 0,
            since,
        }
    }

    /// A look ended that has told of this number of keys: whether it is repeated.
    pub(crate) fn goes_on(&mut self, told: usize) -> bool {
        if self.most < told {
            self.most = told;
            self.since = Instant::now(&self.clock).ok();
        }
        wait_within(&self.clock, 0, self.since, self.give_up)
    }
}
