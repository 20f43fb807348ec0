//! What an item contains, by its type.
ghost use Rattle.std.specs.Prelude.{◌≡◌, option_map};
ghost use Rattle.kmip_ttlv.specs.Node.{
  tag_of,
  content_of,
  as_structure,
  as_integer,
  as_enumeration,
  as_text_string,
  as_byte_string,
  as_date_time,
};
ghost use Rattle.kmip_ttlv.specs.View.{view, views, content};
ghost use Rattle.kmip_ttlv.specs.Spelling.{type_of};

use crate::item::Item;
use crate::item_type::ItemType;
use crate::tag::Tag;
use crate::value::Value;

impl Value {
    /// The type of the value.
    pub fn item_type(&self) -> ItemType
        ensures { result ≡ type_of (content self.now) }
    {
        match self {
            Value::Structure(_) => ItemType::Structure,
            Value::Integer(_) => ItemType::Integer,
            Value::LongInteger(_) => ItemType::LongInteger,
            Value::BigInteger(_) => ItemType::BigInteger,
            Value::Enumeration(_) => ItemType::Enumeration,
            Value::Boolean(_) => ItemType::Boolean,
            Value::TextString(_) => ItemType::TextString,
            Value::ByteString(_) => ItemType::ByteString,
            Value::DateTime(_) => ItemType::DateTime,
            Value::Interval(_) => ItemType::Interval,
            Value::DateTimeExtended(_) => ItemType::DateTimeExtended,
        }
    }
}

impl Item {
    /// The item's tag.
    pub fn tag(&self) -> Tag
        ensures { result ≡ tag_of (view self.now) }
    {
        self.tag
    }

    /// The items of a Structure, `None` for another type.
    pub fn as_structure(&self) -> Option<&[Item]>
        ensures { option_map (λ items. views items.now) result
            ≡ as_structure (content_of (view self.now)) }
    {
        match &self.value {
            Value::Structure(items) => Some(items.as_slice()),
            _ => None,
        }
    }

    /// The number of an Integer, `None` for another type.
    pub fn as_integer(&self) -> Option<i32>
        ensures { result ≡ as_integer (content_of (view self.now)) }
    {
        match &self.value {
            Value::Integer(number) => Some(*number),
            _ => None,
        }
    }

    /// The number of an Enumeration, `None` for another type.
    pub fn as_enumeration(&self) -> Option<u32>
        ensures { result ≡ as_enumeration (content_of (view self.now)) }
    {
        match &self.value {
            Value::Enumeration(number) => Some(*number),
            _ => None,
        }
    }

    /// The text of a Text String, `None` for another type.
    pub fn as_text_string(&self) -> Option<&str>
        ensures { option_map (λ text. text.now) result
            ≡ as_text_string (content_of (view self.now)) }
    {
        match &self.value {
            Value::TextString(text) => Some(text.as_str()),
            _ => None,
        }
    }

    /// The bytes of a Byte String, `None` for another type.
    pub fn as_byte_string(&self) -> Option<&[u8]>
        ensures { option_map (λ bytes. bytes.now) result
            ≡ as_byte_string (content_of (view self.now)) }
    {
        match &self.value {
            Value::ByteString(bytes) => Some(bytes.as_slice()),
            _ => None,
        }
    }

    /// The seconds of a Date-Time, `None` for another type.
    pub fn as_date_time(&self) -> Option<i64>
        ensures { result ≡ as_date_time (content_of (view self.now)) }
    {
        match &self.value {
            Value::DateTime(seconds) => Some(*seconds),
            _ => None,
        }
    }
}
