//! Which items have a written form.
ghost use Rattle.kmip_ttlv.specs.Limits.{head_size, most_bytes};
ghost use Rattle.std.specs.Prelude.{◌≡◌, ◌+◌, ◌≤◌, ◌<◌, ◌↔◌, length, IsTrue};
ghost use Rattle.kmip_ttlv.specs.Node.{nodes_of};
ghost use Rattle.kmip_ttlv.specs.View.{view, views};
ghost use Rattle.kmip_ttlv.specs.Sizes.{Fits, IsWritable, padded};
ghost use Rattle.kmip_ttlv.specs.Private.{IsSizeWithin, AreSizesWithin, IsStructureWithin, size_up_to};

use crate::item::Item;
use crate::item_type::ItemType;
use crate::limits::{HEAD_SIZE, MAX_DEPTH, MAX_SIZE, padding_of};
use crate::tag::a_tag_has_three_bytes;
use crate::value::Value;

/// Whether the item has a written form. It takes no memory.
pub fn fits(item: &Item) -> bool
    // True exactly where the item has at most `MAX_DEPTH` levels and its written form at most `MAX_SIZE`
    // bytes, and each Big Integer is a positive multiple of eight bytes long.
    ensures writable { IsTrue result ↔ IsWritable (view item.now) }
    // True exactly where the item has a written form and each value is in its range, too: the types of the
    // code keep the ranges.
    ensures in_range { IsTrue result ↔ Fits (view item.now) }
{
    size_within(item, MAX_DEPTH, MAX_SIZE).is_some()
}

/// The size of the item's written form, where it has one of at most `levels` levels and `room` bytes.
#[cycle(sizes)]
fn size_within(item: &Item, levels: usize, room: usize) -> Option<usize>
    requires { room ≤ most_bytes }
    ensures { IsSizeWithin result (view item.now) levels room }
{
    a_tag_has_three_bytes(item.tag); // proof
    if levels == 0 {
        return None;
    }
    match &item.value {
        Value::Structure(items) => structure_within(items.as_slice(), levels, room),
        Value::BigInteger(digits) => {
            let len = digits.as_slice().len();
            if !ItemType::BigInteger.allows(len) {
                return None;
            }
            leaf_within(len, room)
        }
        Value::TextString(text) => leaf_within(text.as_str().len(), room),
        Value::ByteString(bytes) => leaf_within(bytes.as_slice().len(), room),
        Value::Integer(number) => leaf_within(number.to_be_bytes().len(), room),
        Value::Enumeration(number) | Value::Interval(number) => {
            leaf_within(number.to_be_bytes().len(), room)
        }
        Value::LongInteger(number) | Value::DateTime(number) | Value::DateTimeExtended(number) =>
            leaf_within(number.to_be_bytes().len(), room),
        Value::Boolean(_) => leaf_within(8, room),
    }
}

/// The size of a Structure of these items, as `size_within` has it.
#[cycle(sizes)]
fn structure_within(items: &[Item], levels: usize, room: usize) -> Option<usize>
    requires room { room ≤ most_bytes }
    requires levels { 0 < levels }
    ensures { IsStructureWithin result (nodes_of (views items.now)) levels room }
{
    if room < HEAD_SIZE {
        return None;
    }
    match all_within(items, levels - 1, room - HEAD_SIZE) {
        Some(size) => Some(HEAD_SIZE + size),
        None => None,
    }
}

/// The size of these items together, where each has at most `levels` levels and all at most `room`
/// bytes.
#[cycle(sizes)]
fn all_within(items: &[Item], levels: usize, room: usize) -> Option<usize>
    requires { room ≤ most_bytes }
    ensures { AreSizesWithin result (nodes_of (views items.now)) levels room }
{
    let mut size = 0;
    for item in items {
        match size_within(item, levels, room - size) {
            Some(more) => size += more,
            None => return None,
        }
    }
    Some(size)
}

/// The size of an item without children whose value has this length.
fn leaf_within(len: usize, room: usize) -> Option<usize>
    requires { room ≤ most_bytes }
    ensures { result ≡ size_up_to (head_size + padded len) room }
{
    if len > room {
        return None;
    }
    let size = HEAD_SIZE + len + padding_of(len);
    if size > room {
        return None;
    }
    Some(size)
}
