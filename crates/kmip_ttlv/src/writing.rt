//! Items to bytes.
ghost use Rattle.std.specs.Prelude.{◌≡◌, ◌+◌, ◌≤◌, ◌<◌, ◌^◌, ◌++◌, length, take, drop, OnErr, OnOk};
ghost use Rattle.byteorder.specs.Endian.{big_bytes};
ghost use Rattle.kmip_ttlv.specs.Limits.{head_size};
ghost use Rattle.kmip_ttlv.specs.Node.{node, structure, nodes_of};
ghost use Rattle.kmip_ttlv.specs.View.{view, views};
ghost use Rattle.kmip_ttlv.specs.Spelling.{head, item_bytes, zeros, padding, canon, canons};
ghost use Rattle.kmip_ttlv.specs.Fitting.{IsInRange, AreInRange};
ghost use Rattle.kmip_ttlv.specs.Sizes.{IsWritable};

use crate::item::Item;
use crate::item_type::ItemType;
use crate::limits::{HEAD_SIZE, padding_of};
use crate::no_memory::NoMemory;
use crate::tag::{Tag, a_tag_has_three_bytes};
use crate::value::Value;
use byteorder::{BigEndian, ByteOrder};

/// The bytes that `write` takes room for at once: most messages have fewer (own).
const ROOM: usize = 512;

/// Appends the one written form of an item, its padding zero.
///
/// # Errors
/// Where there is no memory for the bytes.
pub fn write(item: &Item, out: &mut Vec<u8>) -> Result<(), NoMemory>
    // The item has a written form, as `fits` tells.
    requires { IsWritable (view item.now) }
    // `out` is what it was, with exactly the written form after it.
    ensures ok { OnOk result (out.new.items ≡ out.old.items ++ canon (view item.now)) }
    // At want of memory `out` is as it was.
    ensures err { OnErr result (out.new.items ≡ out.old.items) }
    // Each value of an item that is written is in its range: the types of the code keep the ranges.
    ensures in_range { OnOk result (IsInRange (view item.now)) }
{
    out.reserve(ROOM)?;
    let before = out.len();
    match append(item, out) {
        Ok(()) => Ok(()),
        Err(fault) => {
            out.truncate(before);
            Err(fault)
        }
    }
}

/// Appends the written form of the item; at want of memory, a part of it.
#[cycle(appending)]
fn append(item: &Item, out: &mut Vec<u8>) -> Result<(), NoMemory>
    requires { IsWritable (view item.now) }
    ensures ok { OnOk result (out.new.items ≡ out.old.items ++ canon (view item.now)) }
    ensures kept { take (length out.old.items) out.new.items ≡ out.old.items }
    ensures in_range { OnOk result (IsInRange (view item.now)) }
{
    let tag = item.tag;
    a_tag_has_three_bytes(tag); // proof
    match &item.value {
        Value::Structure(items) => append_structure(tag, items.as_slice(), out),
        Value::Integer(number) => {
            append_four(tag, ItemType::Integer, number.cast_unsigned(), out)
        }
        Value::LongInteger(number) => {
            append_eight(tag, ItemType::LongInteger, number.cast_unsigned(), out)
        }
        Value::BigInteger(digits) => append_leaf(tag, ItemType::BigInteger, digits.as_slice(), out),
        Value::Enumeration(number) => append_four(tag, ItemType::Enumeration, *number, out),
        Value::Boolean(truth) => append_eight(tag, ItemType::Boolean, u64::from(*truth), out),
        Value::TextString(text) => {
            append_leaf(tag, ItemType::TextString, text.as_str().as_bytes(), out)
        }
        Value::ByteString(bytes) => append_leaf(tag, ItemType::ByteString, bytes.as_slice(), out),
        Value::DateTime(number) => {
            append_eight(tag, ItemType::DateTime, number.cast_unsigned(), out)
        }
        Value::Interval(number) => append_four(tag, ItemType::Interval, *number, out),
        Value::DateTimeExtended(number) => {
            append_eight(tag, ItemType::DateTimeExtended, number.cast_unsigned(), out)
        }
    }
}

/// Appends an item whose value is a number of 32 bits, at once.
fn append_four(
    tag: Tag,
    item_type: ItemType,
    number: u32,
    out: &mut Vec<u8>,
) -> Result<(), NoMemory>
    ensures ok { OnOk result (out.new.items ≡ out.old.items
        ++ item_bytes tag item_type (big_bytes 4 number) (zeros 4)) }
    ensures kept { take (length out.old.items) out.new.items ≡ out.old.items }
{
    out.extend_from_slice(&four_bytes(tag, item_type, number))?;
    Ok(())
}

/// An item whose value is a number of 32 bits, as bytes.
#[tactic(auto, unfolding(crate::specs::Spelling::head))]
fn four_bytes(tag: Tag, item_type: ItemType, number: u32) -> [u8; 2 * HEAD_SIZE]
    ensures { result ≡ item_bytes tag item_type (big_bytes 4 number) (zeros 4) }
{
    let mut bytes = [0; 2 * HEAD_SIZE];
    BigEndian::write_u24(&mut bytes, tag.number());
    bytes[3] = item_type.byte();
    BigEndian::write_u32(&mut bytes[4..], 4);
    BigEndian::write_u32(&mut bytes[HEAD_SIZE..], number);
    bytes
}

/// Appends an item whose value is a number of 64 bits, at once.
fn append_eight(
    tag: Tag,
    item_type: ItemType,
    number: u64,
    out: &mut Vec<u8>,
) -> Result<(), NoMemory>
    ensures ok { OnOk result (out.new.items ≡ out.old.items
        ++ item_bytes tag item_type (big_bytes 8 number) (zeros 0)) }
    ensures kept { take (length out.old.items) out.new.items ≡ out.old.items }
{
    out.extend_from_slice(&eight_bytes(tag, item_type, number))?;
    Ok(())
}

/// An item whose value is a number of 64 bits, as bytes.
#[tactic(auto, unfolding(crate::specs::Spelling::head))]
fn eight_bytes(tag: Tag, item_type: ItemType, number: u64) -> [u8; 2 * HEAD_SIZE]
    ensures { result ≡ item_bytes tag item_type (big_bytes 8 number) (zeros 0) }
{
    let mut bytes = [0; 2 * HEAD_SIZE];
    BigEndian::write_u24(&mut bytes, tag.number());
    bytes[3] = item_type.byte();
    BigEndian::write_u32(&mut bytes[4..], 8);
    BigEndian::write_u64(&mut bytes[HEAD_SIZE..], number);
    bytes
}

/// Appends a Structure: its head, and then its items, which end at a multiple of eight. The length in
/// the head is known once the items are written.
#[cycle(appending)]
fn append_structure(tag: Tag, items: &[Item], out: &mut Vec<u8>) -> Result<(), NoMemory>
    requires { IsWritable (node tag (structure (nodes_of (views items.now)))) }
    ensures ok { OnOk result (out.new.items ≡ out.old.items
        ++ canon (node tag (structure (nodes_of (views items.now))))) }
    ensures kept { take (length out.old.items) out.new.items ≡ out.old.items }
    ensures in_range { OnOk result (AreInRange (nodes_of (views items.now))) }
{
    let at = out.len();
    out.extend_from_slice(&[0; HEAD_SIZE])?;
    for item in items {
        append(item, out)?;
    }
    let size = out.len() - at - HEAD_SIZE;
    set_head(tag, ItemType::Structure, size, at, out);
    Ok(())
}

/// Writes a tag, a type and a length over the bytes at this place.
fn set_head(tag: Tag, item_type: ItemType, len: usize, at: usize, out: &mut Vec<u8>)
    requires len { len < 2 ^ 32 }
    requires place { at + head_size ≤ length out.old.items }
    ensures { out.new.items ≡ take at out.old.items
        ++ head tag item_type len ++ drop (at + head_size) out.old.items }
{
    out.as_mut_slice()[at..at + HEAD_SIZE].copy_from_slice(&head_bytes(tag, item_type, len));
}

/// Appends an item that has no children: its head, its value and its padding.
fn append_leaf(
    tag: Tag,
    item_type: ItemType,
    value: &[u8],
    out: &mut Vec<u8>,
) -> Result<(), NoMemory>
    requires { length value.now < 2 ^ 32 }
    ensures ok { OnOk result (out.new.items ≡ out.old.items
        ++ item_bytes tag item_type value.now (zeros (padding (length value.now)))) }
    ensures kept { take (length out.old.items) out.new.items ≡ out.old.items }
{
    append_head(tag, item_type, value.len(), out)?;
    out.extend_from_slice(value)?;
    out.extend_from_slice(&[0; HEAD_SIZE][..padding_of(value.len())])?;
    Ok(())
}

/// Appends a tag, a type and a length.
fn append_head(tag: Tag, item_type: ItemType, len: usize, out: &mut Vec<u8>) -> Result<(), NoMemory>
    requires { len < 2 ^ 32 }
    ensures ok { OnOk result (out.new.items ≡ out.old.items ++ head tag item_type len) }
    ensures kept { take (length out.old.items) out.new.items ≡ out.old.items }
{
    out.extend_from_slice(&head_bytes(tag, item_type, len))?;
    Ok(())
}

/// A tag, a type and a length as bytes.
#[tactic(auto, unfolding(crate::specs::Spelling::head))]
fn head_bytes(tag: Tag, item_type: ItemType, len: usize) -> [u8; HEAD_SIZE]
    requires { len < 2 ^ 32 }
    ensures { result ≡ head tag item_type len }
{
    let mut head = [0; HEAD_SIZE];
    BigEndian::write_u24(&mut head, tag.number());
    head[3] = item_type.byte();
    BigEndian::write_u32(&mut head[4..], u32::try_from(len).unwrap_or(u32::MAX));
    head
}
