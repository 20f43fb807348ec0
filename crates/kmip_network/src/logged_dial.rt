//! Streams to a server, of which is noted what comes over them and why one could not be opened.

use kmip_account::{ExchangeLog, Noted};
use kmip_transport::Dial;
use std::io;
use std::time::{Duration, Instant};

/// Opens streams as another does. What comes over them is noted, and why one could not be opened. While an
/// exchange waits, the log is asked now and then whether to report that.
#[derive(Drop)]
pub(crate) struct LoggedDial<'a, D: Dial + Drop> {
    dial: D,
    log: &'a ExchangeLog<'a>,
}

impl<'a, D: Dial + Drop> LoggedDial<'a, D> {
    pub(crate) fn new(dial: D, log: &'a ExchangeLog<'a>) -> Self {
        LoggedDial { dial, log }
    }
}

impl<'a, D: Dial + Drop> Dial for LoggedDial<'a, D> {
    type Stream = Noted<'a, D::Stream>;

    fn now(&self) -> io::Result<Instant> {
        let now = self.dial.now()?;
        self.log.tick(now);
        Ok(now)
    }

    fn dial(&self, left: Duration) -> io::Result<Noted<'a, D::Stream>> {
        match self.dial.dial(left) {
            Ok(stream) => Ok(Noted::new(stream, self.log.wire())),
            Err(error) => {
                self.log.wire().note_failure(&error);
                Err(error)
            }
        }
    }

    fn limit(&self, stream: &Noted<'a, D::Stream>, left: Duration) -> io::Result<()> {
        self.dial.limit(stream.stream(), left)
    }
}
