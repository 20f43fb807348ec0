//! The tag of an item.
ghost use Rattle.std.specs.Prelude.{◌≡◌, ◌<◌, ◌^◌};

use std::marker::Model;

/// The number that says what an item means: three bytes, so below 2^24.
///
/// Source: KMIP 2.1, TTLV Encoding, Tag.
#[derive(Clone, Copy, Debug, PartialEq, Eq)]
pub struct Tag {
    number: u32,
}

impl Model for Tag {
    ghost use Rattle.std.specs.Prelude.{ℕ, ◌<◌, ◌^◌};

    ghost Value = { ℕ };

    ghost view = { λ t. t.number };

    ghost invariant = { λ t. t.number < 2 ^ 24 };

    ghost inverse = { λ n. record { number = n } };
}

impl Tag {
    /// The tag of this number.
    pub const fn new(number: u32) -> Self
        // The number has three bytes.
        requires { number < 2 ^ 24 }
        ensures { result ≡ number }
    {
        Tag { number }
    }

    /// The tag's number.
    pub fn number(self) -> u32
        // It is the number of which the tag was made.
        ensures value { result ≡ self }
        // It has three bytes.
        ensures in_range { result < 2 ^ 24 }
    {
        self.number
    }
}

/// The number of a tag has three bytes. It does nothing.
pub(crate) fn a_tag_has_three_bytes(tag: Tag)
    ensures { tag < 2 ^ 24 }
{
    tag.number(); // proof
}
