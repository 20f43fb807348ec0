//! The writer of a connection, which is overheard.
use crate::overheard::Overheard;
use std::io::{self, Write};

/// The writer of a connection, which is overheard. Each reply is sent on once it is written.
#[derive(Drop)]
pub(crate) struct Saying<'a, W> {
    stream: W,
    overheard: &'a Overheard<'a>,
}

impl<'a, W: Write> Saying<'a, W> {
    pub(crate) fn new(stream: W, overheard: &'a Overheard<'a>) -> Self {
        Saying { stream, overheard }
    }
}

impl<'a, W: Write> Write for Saying<'a, W> {
    fn write(&mut self, buf: &[u8]) -> io::Result<usize> {
        let count = self.stream.write(buf)?;
        self.overheard.say(&buf[..count.min(buf.len())]);
        Ok(count)
    }

    fn flush(&mut self) -> io::Result<()> {
        self.stream.flush()?;
        self.overheard.tell();
        Ok(())
    }
}
