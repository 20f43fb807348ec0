//! A peer in memory that gives one byte a second, by a clock of its own.

use kmip_transport::Dial;
use std::cell::Cell;
use std::io::{self, Read, Write};
use std::time::{Clock, Duration, Instant};

/// A clock that goes on by a second each time it is asked.
#[derive(Drop)]
struct Ticking {
    seconds: Cell<u64>,
}

impl Clock for Ticking {
    fn monotonic(&self) -> io::Result<Duration> {
        let seconds = self.seconds.get();
        self.seconds.set(seconds.saturating_add(1));
        Ok(Duration::from_secs(seconds))
    }

    fn since_1970(&self) -> io::Result<Duration> {
        self.monotonic()
    }

    fn sleep(&self, _duration: Duration) {}
}

/// A peer that writes these bytes onto each stream, and counts the bytes that it is sent.
#[derive(Drop)]
pub struct Dripping<'a> {
    reply: &'a [u8],
    sent: &'a Cell<usize>,
    clock: Ticking,
}

impl<'a> Dripping<'a> {
    pub fn new(reply: &'a [u8], sent: &'a Cell<usize>) -> Dripping<'a> {
        Dripping {
            reply,
            sent,
            clock: Ticking {
                seconds: Cell::new(0),
            },
        }
    }
}

impl<'a> Dial for Dripping<'a> {
    type Stream = Drops<'a>;

    fn now(&self) -> io::Result<Instant> {
        Instant::now(&self.clock)
    }

    fn dial(&self, _left: Duration) -> io::Result<Drops<'a>> {
        Ok(Drops {
            rest: self.reply,
            sent: self.sent,
        })
    }

    fn limit(&self, _stream: &Drops<'a>, _left: Duration) -> io::Result<()> {
        Ok(())
    }
}

/// A stream that gives one byte a read, and ends behind the last.
#[derive(Drop)]
pub struct Drops<'a> {
    rest: &'a [u8],
    sent: &'a Cell<usize>,
}

impl Read for Drops<'_> {
    fn read(&mut self, buf: &mut [u8]) -> io::Result<usize> {
        if self.rest.is_empty() || buf.is_empty() {
            return Ok(0);
        }
        buf[0] = self.rest[0];
        self.rest = &self.rest[1..];
        Ok(1)
    }
}

impl Write for Drops<'_> {
    fn write(&mut self, buf: &[u8]) -> io::Result<usize> {
        self.sent.set(self.sent.get().saturating_add(buf.len()));
        Ok(buf.len())
    }

    fn flush(&mut self) -> io::Result<()> {
        Ok(())
    }
}
