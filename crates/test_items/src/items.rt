//! Items of TTLV: of each type, made of its value and written; and as long and as deep as may be, and more.

use crate::asserting::{assert_size, assert_text, assert_true};
use kmip_ttlv::{Bytes, Item, NoMemory, Tag, Text, TtlvFault, fits, read, write};
use std::alloc::{AllocError, Global};
use std::process::Abort;
use std::test::Fail;

/// An item of each type, in the order of the types' numbers.
///
/// Source: KMIP 2.1, TTLV Encoding, Examples.
const EXAMPLES: [&str; 11] = [
    "42002001000000204200040500000004000000fe000000004200050200000004000000ff00000000",
    "42002002000000040000000800000000",
    "420020030000000801b69b4ba5749200",
    "42002004000000100000000003fd35eb6bc2df4618080000",
    "4200200500000004000000ff00000000",
    "42002006000000080000000000000001",
    "420020070000000b48656c6c6f20576f726c640000000000",
    "42002008000000030102030000000000",
    "42002009000000080000000047da67f8",
    "4200200a00000004000d2f0000000000",
    "4200200b00000008000448645cf1d040",
];

/// 1,234,567,890,000,000,000,000,000,000.
const DIGITS: [u8; 16] = [
    0x00, 0x00, 0x00, 0x00, 0x03, 0xFD, 0x35, 0xEB, 0x6B, 0xC2, 0xDF, 0x46, 0x18, 0x08, 0x00, 0x00,
];

/// So many levels of Structures, and what `read` says of them.
struct Levels {
    levels: u32,
    wanted: Result<usize, TtlvFault>,
}

const LEVELS: [Levels; 4] = [
    Levels {
        levels: 1,
        wanted: Ok(8),
    },
    Levels {
        levels: 16,
        wanted: Ok(128),
    },
    Levels {
        levels: 17,
        wanted: Err(TtlvFault::TooDeep(128)),
    },
    Levels {
        levels: 1000,
        wanted: Err(TtlvFault::TooDeep(128)),
    },
];

/// A Byte String, and what `read` says of it.
struct Length {
    /// The length that its head says.
    said: u32,
    /// How many bytes stand behind the head.
    bytes: usize,
    wanted: Result<usize, TtlvFault>,
}

const LENGTHS: [Length; 4] = [
    Length {
        said: 8184,
        bytes: 8184,
        wanted: Ok(8192),
    },
    Length {
        said: 8184,
        bytes: 8183,
        wanted: Err(TtlvFault::Short(0)),
    },
    Length {
        said: 8185,
        bytes: 8192,
        wanted: Err(TtlvFault::TooLong(0)),
    },
    Length {
        said: 8185,
        bytes: 8,
        wanted: Err(TtlvFault::TooLong(0)),
    },
];

/// Numbers of bytes, and whether a Byte String and a Big Integer of so many fit.
struct Fitting {
    bytes: &'static [usize],
    is_string: bool,
    is_number: bool,
}

const FITTING: [Fitting; 3] = [
    Fitting {
        bytes: &[0, 4, 12],
        is_string: true,
        is_number: false,
    },
    Fitting {
        bytes: &[8, 16, 8184],
        is_string: true,
        is_number: true,
    },
    Fitting {
        bytes: &[8185, 8192],
        is_string: false,
        is_number: false,
    },
];

/// The item of `EXAMPLES` at a place, made of its value.
fn example(alloc: Global, place: usize) -> Result<Item, AllocError> {
    let tag = Tag::new(0x420020);
    match place {
        0 => {
            let first = Item::enumeration(Tag::new(0x420004), 254);
            let second = Item::integer(Tag::new(0x420005), 255);
            Ok(Item::structure(tag, vec![in alloc; first, second]?))
        }
        1 => Ok(Item::integer(tag, 8)),
        2 => Ok(Item::long_integer(tag, 123_456_789_000_000_000)),
        3 => Ok(Item::big_integer(tag, Bytes::copied(alloc, &DIGITS)?)),
        4 => Ok(Item::enumeration(tag, 255)),
        5 => Ok(Item::boolean(tag, true)),
        6 => Ok(Item::text_string(tag, Text::copied(alloc, "Hello World")?)),
        7 => Ok(Item::byte_string(tag, Bytes::copied(alloc, &[1, 2, 3])?)),
        8 => Ok(Item::date_time(tag, 1_205_495_800)),
        9 => Ok(Item::interval(tag, 864_000)),
        _ => Ok(Item::date_time_extended(tag, 1_205_495_800_123_456)),
    }
}

/// What `read` says of the bytes: the size of the item, which fits, or the fault.
pub fn size_of(rt: &impl Abort, alloc: Global, bytes: &[u8]) -> Result<usize, TtlvFault> {
    let (item, size) = read(alloc, bytes)?;
    assert!(rt; fits(&item));
    Ok(size)
}

/// The item fits, and is written as the text says in hexadecimal.
fn assert_written(rt: &impl Abort, alloc: Global, item: &Item, text: &str) -> Result<(), NoMemory> {
    assert!(rt; fits(item));
    let mut out = Vec::new(alloc);
    write(item, &mut out)?;
    let written = hex::encode(alloc, out.as_slice())?;
    assert_text(rt, written.as_str(), text, text);
    Ok(())
}

/// The items of `EXAMPLES` fit, and are written as they stand there.
fn assert_examples(rt: &impl Abort, alloc: Global, texts: &[&str]) -> Result<(), NoMemory> {
    for (place, text) in texts.iter().enumerate() {
        let item = example(alloc, place)?;
        assert_written(rt, alloc, &item, text)?;
    }
    Ok(())
}

/// A Date-Time tells its seconds, and no other item does.
fn assert_date_times(rt: &impl Abort, alloc: Global) -> Result<(), AllocError> {
    for place in 0..EXAMPLES.len() {
        let wanted = if place == 8 {
            Some(1_205_495_800)
        } else {
            None
        };
        let item = example(alloc, place)?;
        assert_true(rt, item.as_date_time() == wanted, "a date-time");
    }
    Ok(())
}

/// This many Structures, each within the one before it.
fn nested(alloc: Global, levels: u32) -> Result<Vec<u8>, AllocError> {
    let mut bytes = Vec::new(alloc);
    for level in 0..levels {
        let len = (levels - level - 1).saturating_mul(8);
        bytes.extend_from_slice(&[0x42, 0x00, 0x20, 0x01])?;
        bytes.extend_from_slice(&len.to_be_bytes())?;
    }
    Ok(bytes)
}

/// What `read` says of so many levels of Structures.
fn assert_levels(rt: &impl Abort, alloc: Global) -> Result<(), AllocError> {
    for row in &LEVELS {
        let bytes = nested(alloc, row.levels)?;
        let outcome = size_of(rt, alloc, bytes.as_slice());
        assert_size(rt, outcome, row.wanted, "levels");
    }
    Ok(())
}

/// The head of a Byte String of this length, and then as many bytes.
fn byte_string(alloc: Global, len: u32, bytes_len: usize) -> Result<Vec<u8>, AllocError> {
    let mut bytes = vec![in alloc; 0x42, 0x00, 0x20, 0x08]?;
    bytes.extend_from_slice(&len.to_be_bytes())?;
    bytes.resize(8 + bytes_len.min(10_000), 0)?;
    Ok(bytes)
}

/// What `read` says of Byte Strings of these lengths.
fn assert_lengths(rt: &impl Abort, alloc: Global) -> Result<(), AllocError> {
    for row in &LENGTHS {
        let bytes = byte_string(alloc, row.said, row.bytes)?;
        let outcome = size_of(rt, alloc, bytes.as_slice());
        assert_size(rt, outcome, row.wanted, "bytes");
    }
    Ok(())
}

/// Whether a Byte String and a Big Integer of this many zeros fit.
fn assert_fitting(
    rt: &impl Abort,
    alloc: Global,
    bytes: usize,
    row: &Fitting,
) -> Result<(), AllocError> {
    let tag = Tag::new(0x420020);
    let string = Item::byte_string(tag, Bytes::from_vec(vec![in alloc; 0; bytes]?));
    assert_true(rt, fits(&string) == row.is_string, "bytes");
    let number = Item::big_integer(tag, Bytes::from_vec(vec![in alloc; 0; bytes]?));
    assert_true(rt, fits(&number) == row.is_number, "a number");
    Ok(())
}

/// Whether Byte Strings and Big Integers of these numbers of zeros fit.
fn assert_all_fitting(rt: &impl Abort, alloc: Global) -> Result<(), AllocError> {
    for row in &FITTING {
        for bytes in row.bytes {
            assert_fitting(rt, alloc, *bytes, row)?;
        }
    }
    Ok(())
}

/// Structures of up to 16 levels fit, and no deeper ones.
fn assert_levels_fit(rt: &impl Abort, alloc: Global) -> Result<(), AllocError> {
    let tag = Tag::new(0x420020);
    let mut item = Item::structure(tag, Vec::new(alloc));
    for levels in 2..20 {
        item = Item::structure(tag, vec![in alloc; item]?);
        assert_true(rt, fits(&item) == (levels <= 16), "levels");
    }
    Ok(())
}

#[test]
fn writes_each_type_within_the_limits(rt: HostRuntime) -> Result<(), Fail> {
    assert_examples(&rt, rt.alloc(), &EXAMPLES)?;
    assert_date_times(&rt, rt.alloc())?;
    assert_levels(&rt, rt.alloc())?;
    assert_lengths(&rt, rt.alloc())?;
    assert_all_fitting(&rt, rt.alloc())?;
    assert_levels_fit(&rt, rt.alloc())?;
    Ok(())
}
