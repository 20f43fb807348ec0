//! A value of one of the types 01 to 0B of TTLV, in the order of their numbers.
use crate::bytes::Bytes;
use crate::item::Item;
use crate::text::Text;

/// A value of one of the types 01 to 0B of TTLV, in the order of their numbers.
///
/// Source: KMIP 2.1, TTLV Encoding, Type.
#[derive(Drop)]
#[cycle(item)]
pub enum Value {
    /// Items in an order.
    Structure(Vec<Item>),
    /// A signed number of 32 bits.
    Integer(i32),
    /// A signed number of 64 bits.
    LongInteger(i64),
    /// A signed number of any size, kept as its bytes: one or more groups of eight.
    BigInteger(Bytes),
    /// One of the numbers that the standard lists for a tag.
    Enumeration(u32),
    Boolean(bool),
    TextString(Text),
    ByteString(Bytes),
    /// Seconds since the start of 1970, by UTC.
    DateTime(i64),
    /// Seconds.
    Interval(u32),
    /// Microseconds since the start of 1970, by UTC.
    DateTimeExtended(i64),
}
