//! A stream that does not wait, and notes where it would have had to.

use std::cell::Cell;
use std::io::{self, Error, ErrorKind, Read, Write};

/// A stream that does not wait, and notes where it would have had to.
#[derive(Drop)]
pub(crate) struct Pausing<'a, T> {
    stream: T,
    has_to_wait: &'a Cell<bool>,
}

impl<'a, T> Pausing<'a, T> {
    pub(crate) fn new(stream: T, has_to_wait: &'a Cell<bool>) -> Self {
        Pausing {
            stream,
            has_to_wait,
        }
    }
}

/// Notes whether this failure of a stream is that it would have had to wait.
fn note(has_to_wait: &Cell<bool>, error: &Error) {
    has_to_wait.set(error.kind() == ErrorKind::WouldBlock);
}

impl<'a, T: Read> Read for Pausing<'a, T> {
    fn read(&mut self, buf: &mut [u8]) -> io::Result<usize> {
        match self.stream.read(buf) {
            Ok(count) => Ok(count),
            Err(error) => {
                note(self.has_to_wait, &error);
                Err(error)
            }
        }
    }
}

impl<'a, T: Write> Write for Pausing<'a, T> {
    fn write(&mut self, buf: &[u8]) -> io::Result<usize> {
        match self.stream.write(buf) {
            Ok(count) => Ok(count),
            Err(error) => {
                note(self.has_to_wait, &error);
                Err(error)
            }
        }
    }

    fn flush(&mut self) -> io::Result<()> {
        self.stream.flush()
    }
}
