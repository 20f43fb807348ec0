//! A reader that gives its bytes in pieces, may be interrupted before each, and may fail at the end.

use crate::ways::Way;
use std::io::{self, BufRead, Error, ErrorKind, Read};

#[derive(Drop)]
pub(crate) struct PieceReader<'a> {
    /// The bytes that it has still to give.
    pub(crate) rest: &'a [u8],
    pub(crate) piece_len: usize,
    pub(crate) way: &'a Way<'a>,
    pub(crate) is_interrupted: bool,
}

impl Read for PieceReader<'_> {
    fn read(&mut self, _buf: &mut [u8]) -> io::Result<usize> {
        Err(Error::from(ErrorKind::Unsupported))
    }
}

impl BufRead for PieceReader<'_> {
    fn fill_buf(&mut self) -> io::Result<&[u8]> {
        self.is_interrupted = self.way.is_interrupted && !self.is_interrupted;
        if self.is_interrupted {
            return Err(Error::from(ErrorKind::Interrupted));
        }
        if self.rest.is_empty() && self.way.does_fail {
            return Err(Error::from(ErrorKind::Other));
        }
        Ok(&self.rest[..self.piece_len.min(self.rest.len())])
    }

    fn consume(&mut self, amount: usize) {
        self.rest = &self.rest[amount.min(self.rest.len())..];
    }
}
