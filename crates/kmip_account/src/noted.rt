//! Streams of which it is noted what came, and how they failed.

use crate::wire::Wire;
use std::io::{self, Read, Write};

/// A stream of which the first bytes that come, and its failures, are noted.
#[derive(Drop)]
pub struct Noted<'a, S> {
    stream: S,
    wire: &'a Wire,
}

impl<'a, S> Noted<'a, S> {
    /// This stream, of which is noted there.
    pub fn new(stream: S, wire: &'a Wire) -> Self {
        Noted { stream, wire }
    }

    /// The stream itself.
    pub fn stream(&self) -> &S {
        &self.stream
    }
}

impl<'a, S: Read> Read for Noted<'a, S> {
    fn read(&mut self, buf: &mut [u8]) -> io::Result<usize> {
        let done = self.stream.read(buf);
        match &done {
            Ok(count) => self.wire.note_bytes(buf.get(..*count).unwrap_or(&[])),
            Err(error) => self.wire.note_failure(error),
        }
        done
    }
}

impl<'a, S: Write> Write for Noted<'a, S> {
    fn write(&mut self, buf: &[u8]) -> io::Result<usize> {
        let done = self.stream.write(buf);
        if let Err(error) = &done {
            self.wire.note_failure(error);
        }
        done
    }

    fn flush(&mut self) -> io::Result<()> {
        self.stream.flush()
    }
}
