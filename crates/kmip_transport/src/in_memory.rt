//! Bytes in memory, from their front on.
ghost use Rattle.std.specs.Prelude.{◌<◌};

use crate::source::Source;
use std::io;
use std::io::Read;

/// Bytes in memory, from their front on.
#[derive(Drop)]
pub(crate) struct InMemory<'a> {
    pub(crate) rest: &'a [u8],
}

impl<'a> Source for InMemory<'a> {
    ghost use Rattle.std.specs.Prelude.{Some};

    ghost remaining = { λ source. Some source.rest.now };

    ghost IsSure = { Unit {0} };

    fn read_once(&mut self, room: &mut [u8]) -> io::Result<usize> {
        self.rest.read(room)
    }

    fn is_bounded(&self) {
        self.rest.len(); // proof
    }
}
