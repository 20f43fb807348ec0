//! How deep and how long an item may be, and how its value is padded.
ghost use Rattle.std.specs.Prelude.{◌≡◌, ◌-◌, ◌%◌};
ghost use Rattle.kmip_ttlv.specs.Spelling.{padding};

/// The most levels that an item may have; an item without children has 1. It is a limit of our own.
pub const MAX_DEPTH: usize = 16;

/// The most bytes that an item may take, with its head and its padding. It is a limit of our own.
pub const MAX_SIZE: usize = 8192;

/// The bytes of an item's head: a tag of three, a type of one and a length of four.
///
/// Source: KMIP 2.1, TTLV Encoding.
pub const HEAD_SIZE: usize = 8;

/// How many bytes of padding follow a value of this length: the fewest that make it a multiple of
/// eight (KMIP 2.1, TTLV Encoding, Value).
pub(crate) fn padding_of(len: usize) -> usize
    ensures { result ≡ padding len }
{
    (8 - len % 8) % 8
}
