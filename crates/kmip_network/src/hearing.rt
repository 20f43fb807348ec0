//! The reader of a connection, which is overheard.
use crate::overheard::Overheard;
use std::io::{self, Read};

/// The reader of a connection, which is overheard. No byte after a message is read before its reply
/// is written, so what was read since the last reply is one message.
#[derive(Drop)]
pub(crate) struct Hearing<'a, R> {
    stream: R,
    overheard: &'a Overheard<'a>,
}

impl<'a, R: Read> Hearing<'a, R> {
    pub(crate) fn new(stream: R, overheard: &'a Overheard<'a>) -> Self {
        Hearing { stream, overheard }
    }
}

impl<'a, R: Read> Read for Hearing<'a, R> {
    fn read(&mut self, buf: &mut [u8]) -> io::Result<usize> {
        let count = self.stream.read(buf)?;
        self.overheard.hear(&buf[..count.min(buf.len())]);
        Ok(count)
    }
}
