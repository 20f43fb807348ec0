//! A clock that moves by sleeping alone, and who counts the exchanges that it is told of.

use kmip_batch_items::Reply;
use kmip_client::{Client, Listener, Part};
use kmip_protocol::NoReplyReason;
use kmip_run_command::Counting;
use kmip_runs::{ExchangeNews, Observer, Pace, Patience};
use kmip_tally::RunTally;
use kmip_ttlv::NoMemory;
use std::alloc::Global;
use std::cell::Cell;
use std::io;
use std::time::{Clock, Duration};

/// A clock that moves by sleeping alone: it tells for how long it slept, in milliseconds.
#[derive(Drop)]
pub(crate) struct Stopped {
    pub(crate) slept: Cell<u64>,
}

impl Clock for Stopped {
    fn monotonic(&self) -> io::Result<Duration> {
        Ok(Duration::from_millis(self.slept.get()))
    }

    fn since_1970(&self) -> io::Result<Duration> {
        Ok(Duration::ZERO)
    }

    fn sleep(&self, duration: Duration) {
        let more = u64::try_from(duration.as_millis()).unwrap_or(u64::MAX);
        self.slept.set(self.slept.get().saturating_add(more));
    }
}

/// Counts the exchanges that it is told of, and the ends of runs.
#[derive(Drop)]
pub(crate) struct Count {
    /// Exchanges that brought bytes.
    pub(crate) replies: usize,
    pub(crate) losses: usize,
    /// Exchanges in which the link failed.
    pub(crate) faults: usize,
    pub(crate) ends: usize,
}

impl Count {
    pub(crate) fn new() -> Self {
        Count {
            replies: 0,
            losses: 0,
            faults: 0,
            ends: 0,
        }
    }
}

impl Listener for Count {
    fn replied(&mut self, _replies: &[Reply]) {
        self.replies = self.replies.saturating_add(1);
    }
}

impl Observer for Count {
    fn asked(&mut self, _parts: &[Part]) {}

    fn missed(&mut self, reason: &NoReplyReason<'_>) {
        let count = match reason {
            NoReplyReason::Lost => &mut self.losses,
            NoReplyReason::Failed(_) => &mut self.faults,
            NoReplyReason::Unreadable(_, _) | NoReplyReason::NoMemory => &mut self.replies,
        };
        *count = count.saturating_add(1);
    }

    fn learned(&mut self, _client: &Client<'_>, _news: ExchangeNews) {}

    fn ended(&mut self) {
        self.ends = self.ends.saturating_add(1);
    }
}

impl Counting for Count {
    fn tally(&mut self, alloc: Global, _client: &Client<'_>) -> Result<RunTally, NoMemory> {
        Ok(RunTally {
            exchanges: 0,
            lost: 0,
            unreadable: 0,
            refused: 0,
            milliseconds: 0,
            steps: Vec::new(alloc),
            unanswered: None,
        })
    }
}

/// Waits as a pace does, and counts the exchanges after which something known had grown.
#[derive(Drop)]
pub(crate) struct Patient<'c> {
    pace: Pace<&'c Stopped>,
    got_on: usize,
    exchanges: usize,
}

impl<'c> Patient<'c> {
    pub(crate) fn new(pace: Pace<&'c Stopped>) -> Self {
        Patient {
            pace,
            got_on: 0,
            exchanges: 0,
        }
    }

    pub(crate) fn pace(&self) -> &Pace<&'c Stopped> {
        &self.pace
    }

    pub(crate) fn got_on(&self) -> usize {
        self.got_on
    }

    pub(crate) fn exchanges(&self) -> usize {
        self.exchanges
    }
}

impl<'c> Patience for Patient<'c> {
    ghost has_given_up = { λ patient. patient.pace.has_given_up };

    ghost asked = { λ patient. patient.pace.asked };

    fn exchanged(&mut self, client: &Client<'_>, news: ExchangeNews) {
        self.exchanges = self.exchanges.saturating_add(1);
        if matches!(news, ExchangeNews::Grew) {
            self.got_on = self.got_on.saturating_add(1);
        }
        self.pace.exchanged(client, news);
    }

    fn go_on(&mut self) -> bool {
        self.pace.go_on()
    }
}
