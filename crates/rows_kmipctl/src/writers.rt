//! A writer that keeps what it is given, as far as it has room, and notes when that is sent on.

use std::io::{self, Error, ErrorKind, Write};

#[derive(Drop)]
pub(crate) struct NotingWriter {
    pub(crate) written: Vec<u8>,
    /// For how many bytes more it has room.
    pub(crate) room: usize,
    /// How many bytes it had at each flush, once for each number.
    pub(crate) sent: Vec<usize>,
}

impl Write for NotingWriter {
    fn write(&mut self, buf: &[u8]) -> io::Result<usize> {
        let size = buf.len().min(self.room);
        match self.written.extend_from_slice(&buf[..size]) {
            Ok(()) => self.room -= size,
            Err(_) => return Err(Error::from(ErrorKind::OutOfMemory)),
        }
        Ok(size)
    }

    fn flush(&mut self) -> io::Result<()> {
        let size = self.written.len();
        if self.sent.last().copied() == Some(size) {
            return Ok(());
        }
        match self.sent.push(size) {
            Ok(()) => Ok(()),
            Err(_) => Err(Error::from(ErrorKind::OutOfMemory)),
        }
    }
}
