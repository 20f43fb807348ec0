//! Where bytes come from: a reader, or bytes in memory, which never fail.
ghost use Rattle.std.specs.Prelude.{◌<◌, ◌^◌, ℕ, List, Option, length, IsOk, IsSomeAnd};
ghost use Rattle.std.specs.Io.{ReadsAtMost};
ghost use Rattle.std.specs.Io.KnownBytes.{ReadConsumes};

use std::io;
use std::io::Read;

/// What bytes are read from.
pub(crate) trait Source {
    /// The bytes that reads will give from here on, where they are known.
    ghost remaining: { Self → Option (List ℕ) };

    /// None of its reads fails, and its bytes are known and bounded. Of a reader nobody can say so.
    ghost IsSure: { Type 0 };

    /// Reads once, and answers how many bytes were put at the front of the room: none at the end.
    ///
    /// # Errors
    /// Those of the reader.
    fn read_once(&mut self, room: &mut [u8]) -> io::Result<usize>
        ensures bound { ReadsAtMost result room.new }
        ensures bytes { ReadConsumes (remaining self.old) (remaining self.new) result room.new }
        ensures sure { IsSure → IsOk result };

    /// Less than 2^64 bytes are left of a source that is sure: a law, which does nothing.
    fn is_bounded(&self)
        ensures { IsSure → IsSomeAnd (remaining self.now) (λ bytes. length bytes < 2 ^ 64) };
}

/// Every reader, which may fail.
impl<R: Read> Source for R {
    ghost remaining = { λ reader. R.remaining reader };

    ghost IsSure = { ⊥ };

    fn read_once(&mut self, room: &mut [u8]) -> io::Result<usize> {
        self.read(room)
    }

    fn is_bounded(&self) {}
}
