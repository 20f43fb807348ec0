//! The type byte of an item.
ghost use Rattle.std.specs.Prelude.{◌≡◌, ◌<◌};
ghost use Rattle.kmip_ttlv.specs.Types.{type_of_byte, byte_of_type, is_allowed};
ghost use Rattle.kmip_ttlv.specs.Showing.{type_name};

/// The types of TTLV, in the order of their numbers 01 to 0B.
///
/// Source: KMIP 2.1, TTLV Encoding, Type.
#[derive(Clone, Copy)]
pub enum ItemType {
    Structure,
    Integer,
    LongInteger,
    BigInteger,
    Enumeration,
    Boolean,
    TextString,
    ByteString,
    DateTime,
    Interval,
    DateTimeExtended,
}

impl ItemType {
    /// The type of this number, `None` where there is none.
    pub fn from_byte(byte: u8) -> Option<ItemType>
        ensures { result ≡ type_of_byte byte }
    {
        match byte {
            1 => Some(ItemType::Structure),
            2 => Some(ItemType::Integer),
            3 => Some(ItemType::LongInteger),
            4 => Some(ItemType::BigInteger),
            5 => Some(ItemType::Enumeration),
            6 => Some(ItemType::Boolean),
            7 => Some(ItemType::TextString),
            8 => Some(ItemType::ByteString),
            9 => Some(ItemType::DateTime),
            10 => Some(ItemType::Interval),
            11 => Some(ItemType::DateTimeExtended),
            _ => None,
        }
    }

    /// The type's number.
    pub fn byte(self) -> u8
        ensures { result ≡ byte_of_type self }
    {
        match self {
            ItemType::Structure => 1,
            ItemType::Integer => 2,
            ItemType::LongInteger => 3,
            ItemType::BigInteger => 4,
            ItemType::Enumeration => 5,
            ItemType::Boolean => 6,
            ItemType::TextString => 7,
            ItemType::ByteString => 8,
            ItemType::DateTime => 9,
            ItemType::Interval => 10,
            ItemType::DateTimeExtended => 11,
        }
    }

    /// The type's name, as it is shown.
    pub fn name(self) -> &'static str
        ensures { result.now ≡ type_name self }
    {
        match self {
            ItemType::Structure => "Structure",
            ItemType::Integer => "Integer",
            ItemType::LongInteger => "LongInteger",
            ItemType::BigInteger => "BigInteger",
            ItemType::Enumeration => "Enumeration",
            ItemType::Boolean => "Boolean",
            ItemType::TextString => "TextString",
            ItemType::ByteString => "ByteString",
            ItemType::DateTime => "DateTime",
            ItemType::Interval => "Interval",
            ItemType::DateTimeExtended => "DateTimeExtended",
        }
    }

    /// Whether a value of this type may have this length.
    pub fn allows(self, len: usize) -> bool
        ensures { result ≡ is_allowed self len }
    {
        match self {
            ItemType::Structure => len % 8 == 0,
            ItemType::BigInteger => len > 0 && len % 8 == 0,
            ItemType::Integer | ItemType::Enumeration | ItemType::Interval => len == 4,
            ItemType::LongInteger
            | ItemType::Boolean
            | ItemType::DateTime
            | ItemType::DateTimeExtended => len == 8,
            ItemType::TextString | ItemType::ByteString => true,
        }
    }
}
