//! Items made of their parts, none of which takes memory.
ghost use Rattle.std.specs.Prelude.{◌≡◌};
ghost use Rattle.kmip_ttlv.specs.Node.{
  node,
  structure,
  integer,
  long_integer,
  big_integer,
  enumeration,
  boolean,
  text_string,
  byte_string,
  date_time,
  interval,
  date_time_extended,
  nodes_of,
};
ghost use Rattle.kmip_ttlv.specs.View.{view, views};

use crate::bytes::Bytes;
use crate::item::Item;
use crate::tag::Tag;
use crate::text::Text;
use crate::value::Value;

impl Item {
    /// A Structure of these items, in this order.
    pub fn structure(tag: Tag, items: Vec<Item>) -> Item
        ensures { view result ≡ node tag (structure (nodes_of (views items.items))) }
    {
        Item {
            tag,
            value: Value::Structure(items),
        }
    }

    /// An Integer of this number.
    pub fn integer(tag: Tag, number: i32) -> Item
        ensures { view result ≡ node tag (integer number) }
    {
        Item {
            tag,
            value: Value::Integer(number),
        }
    }

    /// A Long Integer of this number.
    pub fn long_integer(tag: Tag, number: i64) -> Item
        ensures { view result ≡ node tag (long_integer number) }
    {
        Item {
            tag,
            value: Value::LongInteger(number),
        }
    }

    /// A Big Integer of these bytes, whatever their number. Only groups of eight have a written form.
    pub fn big_integer(tag: Tag, digits: Bytes) -> Item
        ensures { view result ≡ node tag (big_integer digits) }
    {
        Item {
            tag,
            value: Value::BigInteger(digits),
        }
    }

    /// An Enumeration of this number.
    pub fn enumeration(tag: Tag, number: u32) -> Item
        ensures { view result ≡ node tag (enumeration number) }
    {
        Item {
            tag,
            value: Value::Enumeration(number),
        }
    }

    /// A Boolean of this truth.
    pub fn boolean(tag: Tag, truth: bool) -> Item
        ensures { view result ≡ node tag (boolean truth) }
    {
        Item {
            tag,
            value: Value::Boolean(truth),
        }
    }

    /// A Text String of this text.
    pub fn text_string(tag: Tag, text: Text) -> Item
        ensures { view result ≡ node tag (text_string text) }
    {
        Item {
            tag,
            value: Value::TextString(text),
        }
    }

    /// A Byte String of these bytes.
    pub fn byte_string(tag: Tag, bytes: Bytes) -> Item
        ensures { view result ≡ node tag (byte_string bytes) }
    {
        Item {
            tag,
            value: Value::ByteString(bytes),
        }
    }

    /// A Date-Time, in seconds since the start of 1970.
    pub fn date_time(tag: Tag, seconds: i64) -> Item
        ensures { view result ≡ node tag (date_time seconds) }
    {
        Item {
            tag,
            value: Value::DateTime(seconds),
        }
    }

    /// An Interval, in seconds.
    pub fn interval(tag: Tag, seconds: u32) -> Item
        ensures { view result ≡ node tag (interval seconds) }
    {
        Item {
            tag,
            value: Value::Interval(seconds),
        }
    }

    /// A Date-Time Extended, in microseconds since the start of 1970.
    pub fn date_time_extended(tag: Tag, microseconds: i64) -> Item
        ensures { view result ≡ node tag (date_time_extended microseconds) }
    {
        Item {
            tag,
            value: Value::DateTimeExtended(microseconds),
        }
    }
}
