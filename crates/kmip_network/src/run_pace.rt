//! The waits of a run on this machine.

use kmip_client::Client;
use kmip_desk::RunPatience;
use kmip_runs::{ExchangeNews, Pace, Patience};
use std::time::Clock;

/// A `Pace` that begins anew when the run begins: not while it waits for a lock, or looks.
#[derive(Drop)]
pub(crate) struct RunPace<C> {
    clock: C,
    /// The first wait, in milliseconds; 0 for none ever.
    first: u64,
    /// After how many seconds it gives up; 0 for never.
    most: u64,
    pace: Pace<C>,
}

impl<C: Clock + Copy> RunPace<C> {
    /// A pace with its first wait in milliseconds, and the seconds after which it gives up.
    pub(crate) fn new(clock: C, first: u64, most: u64) -> Self {
        RunPace {
            clock,
            first,
            most,
            pace: Pace::new(clock, first, most),
        }
    }

    /// Whether it has given up.
    pub(crate) fn has_given_up(&self) -> bool {
        self.pace.has_given_up()
    }
}

impl<C: Clock> Patience for RunPace<C> {
    ghost has_given_up = { λ p. ⟦<Pace<C> as Patience>⟧.has_given_up p.pace };

    ghost asked = { λ p. ⟦<Pace<C> as Patience>⟧.asked p.pace };

    fn exchanged(&mut self, client: &Client<'_>, news: ExchangeNews) {
        self.pace.exchanged(client, news);
    }

    fn go_on(&mut self) -> bool {
        self.pace.go_on()
    }
}

impl<C: Clock + Copy> RunPatience for RunPace<C> {
    fn begin(&mut self) {
        self.pace = Pace::new(self.clock, self.first, self.most);
    }
}
