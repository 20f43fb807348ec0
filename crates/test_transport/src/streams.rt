//! A reader that gives one byte a read and is interrupted before each, and writers: one with little room, and one that is
//! interrupted as the reader is.

use std::alloc::Global;
use std::io::{self, Error, ErrorKind, Read, Write};

/// A reader that gives one byte a read, and fails or ends behind the last.
#[derive(Drop)]
pub struct ByteReader<'a> {
    rest: &'a [u8],
    is_interrupted: bool,
    does_fail: bool,
}

impl<'a> ByteReader<'a> {
    pub fn ending(rest: &'a [u8]) -> ByteReader<'a> {
        ByteReader {
            rest,
            is_interrupted: false,
            does_fail: false,
        }
    }

    pub fn failing(rest: &'a [u8]) -> ByteReader<'a> {
        ByteReader {
            rest,
            is_interrupted: false,
            does_fail: true,
        }
    }

    /// How many bytes were not read.
    pub fn left(&self) -> usize {
        self.rest.len()
    }
}

impl Read for ByteReader<'_> {
    fn read(&mut self, buf: &mut [u8]) -> io::Result<usize> {
        self.is_interrupted = !self.is_interrupted;
        if self.is_interrupted {
            return Err(Error::from(ErrorKind::Interrupted));
        }
        if self.rest.is_empty() && self.does_fail {
            return Err(Error::from(ErrorKind::Other));
        }
        if self.rest.is_empty() || buf.is_empty() {
            return Ok(0);
        }
        buf[0] = self.rest[0];
        self.rest = &self.rest[1..];
        Ok(1)
    }
}

/// A writer that takes three bytes a write, and fails once it has no room.
#[derive(Drop)]
pub struct ShortWriter {
    pub room: usize,
}

impl Write for ShortWriter {
    fn write(&mut self, buf: &[u8]) -> io::Result<usize> {
        if self.room == 0 {
            return Err(Error::from(ErrorKind::Other));
        }
        let count = buf.len().min(self.room).min(3);
        self.room -= count;
        Ok(count)
    }

    fn flush(&mut self) -> io::Result<()> {
        Ok(())
    }
}

/// A writer that takes one byte a write, and is interrupted before each.
#[derive(Drop)]
pub struct ByteWriter {
    taken: Vec<u8>,
    is_interrupted: bool,
}

impl ByteWriter {
    pub fn new(alloc: Global) -> ByteWriter {
        ByteWriter {
            taken: Vec::new(alloc),
            is_interrupted: false,
        }
    }

    /// The bytes that were written.
    pub fn taken(&self) -> &[u8] {
        self.taken.as_slice()
    }
}

impl Write for ByteWriter {
    fn write(&mut self, buf: &[u8]) -> io::Result<usize> {
        self.is_interrupted = !self.is_interrupted;
        if self.is_interrupted {
            return Err(Error::from(ErrorKind::Interrupted));
        }
        match buf.split_first() {
            Some((byte, _)) => {
                self.taken.push(*byte)?;
                Ok(1)
            }
            None => Ok(0),
        }
    }

    fn flush(&mut self) -> io::Result<()> {
        Ok(())
    }
}
