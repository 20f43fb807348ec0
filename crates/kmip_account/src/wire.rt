//! What came over the streams of one exchange.

use kmip_protocol::LinkFault;
use kmip_run_record::{Failure, Silence, Traffic};
use std::cell::Cell;
use std::io::Error;

/// What came over the streams of the exchange under way.
#[derive(Drop)]
pub struct Wire {
    traffic: Cell<Traffic>,
}

impl Wire {
    /// Of an exchange of which nothing came yet.
    pub fn new() -> Self {
        Wire {
            traffic: Cell::new(Traffic::none()),
        }
    }

    /// The next exchange begins: nothing came of it yet.
    pub fn begin(&self) {
        self.traffic.set(Traffic::none());
    }

    /// These bytes came.
    pub fn note_bytes(&self, bytes: &[u8]) {
        let mut traffic = self.traffic.get();
        traffic.note_bytes(bytes);
        self.traffic.set(traffic);
    }

    /// A stream could not be opened, written or read.
    pub fn note_failure(&self, error: &Error) {
        let mut traffic = self.traffic.get();
        traffic.note_failure(Failure::of(error));
        self.traffic.set(traffic);
    }

    /// What came so far.
    pub(crate) fn traffic(&self) -> Traffic {
        self.traffic.get()
    }

    /// Why an exchange brought no message.
    pub(crate) fn silence(&self, fault: Option<LinkFault>) -> Silence {
        self.traffic.get().silence(fault)
    }
}
