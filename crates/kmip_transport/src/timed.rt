//! A stream with one deadline over all its reads and writes.
ghost use Rattle.std.specs.Prelude.{◌≡◌, ◌+◌, ◌↔◌, IsSome, IfSome};
ghost use Rattle.std.specs.Duration.{as_nanos};
ghost use Rattle.std.specs.Time.{instant_nanos, FitsClock};

use crate::dial::Dial;
use crate::open;
use crate::open::Open;
use std::io;
use std::io::{Error, ErrorKind, Read, Write};
use std::time::{Duration, Instant};

/// In how many parts of its time an exchange waits (own).
const PARTS: u32 = 16;

/// When an exchange that begins now ends, if it may take this long; none if no clock shows that time.
pub(crate) fn end_of(start: Instant, limit: Duration) -> Option<Instant>
    ensures shown { IsSome result ↔ FitsClock (instant_nanos start + as_nanos limit) }
    ensures end { IfSome result (λ end. instant_nanos end ≡ instant_nanos start + as_nanos limit) }
{
    start.checked_add(limit)
}

/// A stream that fails by `TimedOut` from its end on. A read or a write waits no longer than what is
/// left of the time before it.
///
/// It waits in parts of the time, and goes on after one in which nothing came. So the options of the stream
/// are set once, and again only in the last part of the time.
#[derive(Drop)]
pub(crate) struct Timed<'a, D: Dial> {
    dial: &'a D,
    stream: &'a mut Open<D::Stream>,
    /// When the time is over.
    end: Instant,
    /// The longest part of the time.
    part: Duration,
}

impl<'a, D: Dial> Timed<'a, D> {
    /// The stream, of an exchange that may take as long as the limit, and ends then.
    pub(crate) fn new(
        dial: &'a D,
        stream: &'a mut Open<D::Stream>,
        limit: Duration,
        end: Instant,
    ) -> Self {
        Timed {
            dial,
            stream,
            end,
            part: limit.checked_div(PARTS).unwrap_or(limit),
        }
    }

    /// Limits the next read or write to a part of the time, or to what is left.
    fn limit(&mut self) -> io::Result<()> {
        let left = self.end.saturating_duration_since(self.dial.now()?);
        if left.is_zero() {
            return Err(Error::from(ErrorKind::TimedOut));
        }
        open::limit(self.dial, self.stream, left.min(self.part))
    }
}

/// Whether the wait of a read or a write was over before anything was read or written.
fn is_over(error: &Error) -> bool {
    matches!(error.kind(), ErrorKind::WouldBlock | ErrorKind::TimedOut)
}

impl<'a, D: Dial> Read for Timed<'a, D> {
    fn read(&mut self, buf: &mut [u8]) -> io::Result<usize> {
        for _ in 0..u64::MAX {
            self.limit()?;
            match self.stream.stream_mut().read(buf) {
                Err(error) if is_over(&error) => {}
                done => return done,
            }
        }
        Err(Error::from(ErrorKind::TimedOut))
    }
}

impl<'a, D: Dial> Write for Timed<'a, D> {
    fn write(&mut self, buf: &[u8]) -> io::Result<usize> {
        for _ in 0..u64::MAX {
            self.limit()?;
            match self.stream.stream_mut().write(buf) {
                Err(error) if is_over(&error) => {}
                done => return done,
            }
        }
        Err(Error::from(ErrorKind::TimedOut))
    }

    fn flush(&mut self) -> io::Result<()> {
        self.stream.stream_mut().flush()
    }
}
