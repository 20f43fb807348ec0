//! A watch that prints nothing.

use crate::steady::Steady;
use kmip_batch_items::Reply;
use kmip_client::{Client, Listener, NoListener, Part};
use kmip_desk::{Origin, RunFault, RunLook, RunWatch};
use kmip_look::{Mark, RANDOM_MARK_BYTES};
use kmip_protocol::NoReplyReason;
use kmip_refresh::KeyLook;
use kmip_report::ExitStatus;
use kmip_run_command::Counting;
use kmip_runs::{ExchangeNews, Observer};
use kmip_tally::RunTally;
use kmip_ttlv::NoMemory;
use std::alloc::Global;
use std::io;

/// A watch that prints nothing. It counts what it is told, and keeps why a run did not begin.
#[derive(Drop)]
pub struct QuietWatch {
    /// How many messages of a run were sent.
    pub sent: usize,
    /// How many looks were made.
    pub looks: usize,
    /// How often the lock was waited for.
    pub waits: usize,
    /// Why the run did not begin.
    pub fault: Option<RunFault>,
}

impl QuietWatch {
    /// One that was told nothing.
    pub fn new() -> Self {
        QuietWatch {
            sent: 0,
            looks: 0,
            waits: 0,
            fault: None,
        }
    }
}

impl RunWatch for QuietWatch {
    type Pause = Steady;

    type Looker = NoListener;

    fn seconds(&self) -> io::Result<u64> {
        Ok(1_790_000_000)
    }

    fn waits_for_lock(&mut self) {
        self.waits = self.waits.saturating_add(1);
    }

    fn is_not_asked(&mut self, _origin: Option<&Origin>) {}

    fn begins(&mut self, _client: &Client<'_>, _looked_at: Option<usize>) -> Result<(), NoMemory> {
        Ok(())
    }

    fn look(&mut self) -> io::Result<RunLook<Steady, NoListener>> {
        self.looks = self.looks.saturating_add(1);
        Ok(RunLook {
            mark: Mark::new([7; RANDOM_MARK_BYTES]),
            pause: Steady,
            observer: NoListener,
        })
    }

    fn looked(&mut self, _pause: Steady, _looks: &[KeyLook], _is_silent: bool) -> bool {
        false
    }

    fn agrees(&mut self, _looks: &[KeyLook]) {}

    fn contradicts(&mut self, _client: &Client<'_>, _looks: &[KeyLook]) {}

    fn is_unanswered(&mut self, _looks: &[KeyLook]) {}

    fn tell_unanswered(&mut self, _looks: &[KeyLook]) {}

    fn runs(&mut self, _client: &Client<'_>) {}

    fn refused(&mut self, fault: RunFault) -> ExitStatus {
        self.fault = Some(fault);
        ExitStatus::Refused
    }
}

impl Counting for QuietWatch {
    fn tally(&mut self, alloc: Global, _client: &Client<'_>) -> Result<RunTally, NoMemory> {
        Ok(RunTally {
            exchanges: 0,
            lost: 0,
            unreadable: 0,
            refused: 0,
            milliseconds: 0,
            steps: Vec::new(alloc),
            unanswered: None,
        })
    }
}

impl Listener for QuietWatch {
    fn replied(&mut self, _replies: &[Reply]) {}
}

impl Observer for QuietWatch {
    fn asked(&mut self, _parts: &[Part]) {
        self.sent = self.sent.saturating_add(1);
    }

    fn missed(&mut self, _reason: &NoReplyReason<'_>) {}

    fn learned(&mut self, _client: &Client<'_>, _news: ExchangeNews) {}

    fn ended(&mut self) {}
}
