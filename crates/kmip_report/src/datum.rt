//! A value in a report.

/// A value in a report.
#[derive(Clone, Copy)]
pub enum Datum<'a> {
    /// No value: null in JSON, and these words in text.
    Null(&'static str),
    /// True or false.
    Truth(bool),
    /// A number from 0.
    Number(u64),
    /// An Integer of KMIP: in text in decimal with its sign, in JSON its 32 bits as a number from 0.
    Signed(i32),
    /// A usage mask: eight hexadecimal digits in text, a number in JSON.
    Mask(u32),
    /// A text, which is printed as it is.
    Text(&'a str),
    /// A text that came from elsewhere, such as from a server. In text it is printed in plain
    /// characters, so that it cannot forge a line. In JSON it is as it is: JSON escapes what would
    /// break a line.
    Shown(&'a str),
    /// Texts: an array in JSON; in text each one after a space.
    Words(&'a [&'a str]),
    /// Lines: an array in JSON; in text each one after a line feed.
    Lines(&'a [&'a str]),
    /// Numbers from 0: an array in JSON; in text each one after a space.
    Numbers(&'a [u32]),
}
