//! Bytes to items.
ghost use Rattle.kmip_ttlv.specs.Limits.{head_size, most_bytes, most_levels};
ghost use Rattle.std.specs.Prelude.{◌≡◌, ℕ, ◌+◌, ◌<◌, ◌≤◌, ◌^◌, ◌⊎◌, ◌&&◌, nat_lt, Some, List, ◌++◌, length, take, drop, IfOk, IfErr, IsTrue};
ghost use Rattle.kmip_ttlv.specs.declared.ttlv_fault.TtlvFault.{TtlvFault};
ghost use Rattle.kmip_ttlv.specs.declared.ttlv_fault.TtlvFault.TheVariants as faults;
ghost use Rattle.byteorder.specs.Endian.{big_number};
ghost use Rattle.kmip_ttlv.specs.Node.{Node};
ghost use Rattle.kmip_ttlv.specs.View.{view, views, content};
ghost use Rattle.kmip_ttlv.specs.Types.{is_allowed};
ghost use Rattle.kmip_ttlv.specs.Spelling.{padding, canon, Spells};
ghost use Rattle.kmip_ttlv.specs.Sizes.{Fits, IsWritable};
ghost use Rattle.kmip_ttlv.specs.Heads.{overrun, head_at, typed_head_at};
ghost use Rattle.kmip_ttlv.specs.Private.{GivesContent};
ghost use Rattle.kmip_ttlv.specs.Reading.{ReadsAs, IsRead, IsRefused, boolean_value_at, text_value_at, value_at, all_at, item_at};
ghost use Rattle.kmip_ttlv.specs.Breaks.{Breaks};

use crate::bytes::Bytes;
use crate::item::Item;
use crate::item_type::ItemType;
use crate::limits::{HEAD_SIZE, MAX_DEPTH, MAX_SIZE, padding_of};
use crate::tag::Tag;
use crate::text::Text;
use crate::ttlv_fault::TtlvFault;
use crate::value::Value;
use byteorder::{BigEndian, ByteOrder};
use std::alloc::Global;

/// The item at the front of the bytes, and how many bytes it takes, its padding included. Bytes may
/// follow it, and padding bytes may be anything.
///
/// # Errors
/// The first fault, with the offset of the first byte of the item at fault, and `NoMemory` at want of
/// memory.
pub fn read(alloc: Global, bytes: &[u8]) -> Result<(Item, usize), TtlvFault>
    // The bytes that it takes, at the front, spell what is read.
    ensures found { IfOk result (λ x. (x.1 ≤ length bytes.now)
        × Spells (view x.0) (take x.1 bytes.now)) }
    // What the front of the bytes spells is read, and nothing else, unless memory runs out.
    ensures only { (n : Node) (count : ℕ) → count ≤ length bytes.now
        → Spells n (take count bytes.now) → IsRead result n count }
    // What was written is read again, whatever follows it, unless memory runs out.
    ensures back { (n : Node) (rest : List ℕ) → Fits n → bytes.now ≡ canon n ++ rest
        → IsRead result n (length (canon n)) }
    // What is read has a written form.
    ensures writable { IfOk result (λ x. IsWritable (view x.0)) }
    // A refusal names the first fault of the bytes, with its offset, unless memory ran out.
    ensures fault { IfErr result (λ e. (e ≡ faults.NoMemory)
        ⊎ Breaks most_levels 0 bytes.now e) }
    // Bytes with a fault are refused: for the first fault, unless memory runs out.
    ensures refused { (e : TtlvFault) → Breaks most_levels 0 bytes.now e → IsRefused result e }
    // All of this as one function of the bytes: it returns what `item_at` gives, unless memory ran out.
    ensures exact { ReadsAs result (item_at most_levels 0 bytes.now) }
{
    item_of(alloc, MAX_DEPTH, 0, bytes)
}

/// The item at the front of the bytes, which begin at offset `at` and end where its parent does.
/// `left` counts the levels that are left, `MAX_DEPTH` for the outermost item.
#[cycle(reading)]
#[tactic(auto, unfolding(crate::specs::Reading::item_at))]
fn item_of(alloc: Global, left: usize, at: usize, bytes: &[u8]) -> Result<(Item, usize), TtlvFault>
    requires levels { left ≤ most_levels }
    requires offsets { at + length bytes.now < 2 ^ 64 }
    ensures exact { ReadsAs result (item_at left at bytes.now) }
    ensures size { IfOk result (λ x. (0 < x.1) × (x.1 ≤ length bytes.now)) }
{
    if left == 0 {
        return Err(TtlvFault::TooDeep(at));
    }
    let (tag, item_type, len) = head_of(left == MAX_DEPTH, at, bytes)?;
    let bytes = &bytes[HEAD_SIZE..HEAD_SIZE + len];
    let value = value_of(alloc, left - 1, at, item_type, bytes)?;
    let tag = Tag::new(tag);
    Ok((Item { tag, value }, HEAD_SIZE + len + padding_of(len)))
}

/// The value that these bytes are, without their padding, of the item at offset `at`.
#[cycle(reading)]
#[tactic(auto, unfolding(crate::specs::Reading::value_at))]
fn value_of(
    alloc: Global,
    left: usize,
    at: usize,
    item_type: ItemType,
    bytes: &[u8],
) -> Result<Value, TtlvFault>
    requires levels { left < most_levels }
    requires offsets { at + head_size + length bytes.now < 2 ^ 64 }
    requires allowed { IsTrue (is_allowed item_type (length bytes.now)) }
    ensures { GivesContent content result (value_at (item_at left) at item_type bytes.now) }
{
    match item_type {
        ItemType::Structure => {
            let items = all_of(alloc, left, at + HEAD_SIZE, bytes)?;
            Ok(Value::Structure(items))
        }
        ItemType::Integer => Ok(Value::Integer(BigEndian::read_i32(bytes))),
        ItemType::LongInteger => Ok(Value::LongInteger(BigEndian::read_i64(bytes))),
        ItemType::BigInteger => {
            let digits = Bytes::copied(alloc, bytes)?;
            Ok(Value::BigInteger(digits))
        }
        ItemType::Enumeration => Ok(Value::Enumeration(BigEndian::read_u32(bytes))),
        ItemType::Boolean => {
            let truth = boolean_of(at, bytes)?;
            Ok(Value::Boolean(truth))
        }
        ItemType::TextString => {
            let text = text_of(alloc, at, bytes)?;
            Ok(Value::TextString(text))
        }
        ItemType::ByteString => {
            let bytes = Bytes::copied(alloc, bytes)?;
            Ok(Value::ByteString(bytes))
        }
        ItemType::DateTime => Ok(Value::DateTime(BigEndian::read_i64(bytes))),
        ItemType::Interval => Ok(Value::Interval(BigEndian::read_u32(bytes))),
        ItemType::DateTimeExtended => Ok(Value::DateTimeExtended(BigEndian::read_i64(bytes))),
    }
}

/// The children that take up all of the bytes, which begin at offset `at`.
#[cycle(reading)]
fn all_of(alloc: Global, left: usize, at: usize, bytes: &[u8]) -> Result<Vec<Item>, TtlvFault>
    requires levels { left < most_levels }
    requires offsets { at + length bytes.now < 2 ^ 64 }
    ensures { GivesContent (λ v. views v.items) result
        (all_at (item_at left) (length bytes.now) at bytes.now) }
{
    let mut items = Vec::new(alloc);
    let mut place = at;
    let mut rest = bytes;
    while !rest.is_empty() {
        let (item, size) = item_of(alloc, left, place, rest)?;
        items.push(item)?;
        let (_, after) = rest.split_at(size);
        rest = after;
        place += size;
    }
    Ok(items)
}

/// The tag, the type and the value's length of the item at the front of the bytes, where it is within
/// them and within the limits of the outermost item.
#[tactic(auto, unfolding(crate::specs::Heads::head_at, crate::specs::Heads::typed_head_at))]
fn head_of(outermost: bool, at: usize, bytes: &[u8]) -> Result<(u32, ItemType, usize), TtlvFault>
    ensures exact { result ≡ head_at outermost at bytes.now }
    ensures tag { IfOk result (λ h. h.0 < 2 ^ 24) }
    ensures allowed { IfOk result (λ h. IsTrue (is_allowed h.1 h.2)) }
    ensures within { IfOk result (λ h. head_size + h.2 + padding h.2 ≤ length bytes.now) }
{
    if bytes.len() < HEAD_SIZE {
        return Err(overrun_of(outermost, at));
    }
    match ItemType::from_byte(bytes[3]) {
        Some(item_type) => typed_head_of(outermost, at, bytes, item_type),
        None => Err(TtlvFault::UnknownType(at)),
    }
}

/// The same where the bytes have a head, whose type this is.
#[tactic(auto, unfolding(crate::specs::Heads::typed_head_at))]
fn typed_head_of(
    outermost: bool,
    at: usize,
    bytes: &[u8],
    item_type: ItemType,
) -> Result<(u32, ItemType, usize), TtlvFault>
    requires { head_size ≤ length bytes.now }
    ensures exact { result ≡ typed_head_at outermost at bytes.now (Some item_type)
        (big_number 4 (drop 4 bytes.now)) }
    ensures tag { IfOk result (λ h. h.0 < 2 ^ 24) }
    ensures allowed { IfOk result (λ h. IsTrue (is_allowed h.1 h.2)) }
    ensures within { IfOk result (λ h. head_size + h.2 + padding h.2 ≤ length bytes.now) }
{
    let len = BigEndian::read_u32(&bytes[4..]) as usize;
    if !item_type.allows(len) {
        return Err(TtlvFault::BadLength(at));
    }
    let size = HEAD_SIZE + len + padding_of(len);
    if is_too_long(outermost, size) {
        return Err(TtlvFault::TooLong(at));
    }
    if size > bytes.len() {
        return Err(overrun_of(outermost, at));
    }
    Ok((BigEndian::read_u24(bytes), item_type, len))
}

/// Whether an item of this size is too long: the outermost one alone may be.
fn is_too_long(outermost: bool, size: usize) -> bool
    ensures { result ≡ (outermost && nat_lt most_bytes size) }
{
    outermost && size > MAX_SIZE
}

/// The fault of an item that passes the end: the outermost is short, a child passes its parent's end.
#[tactic(auto, unfolding(crate::specs::Heads::overrun))]
fn overrun_of(outermost: bool, at: usize) -> TtlvFault
    ensures { result ≡ overrun outermost at }
{
    if outermost {
        TtlvFault::Short(at)
    } else {
        TtlvFault::ChildrenOverrun(at)
    }
}

/// The Boolean of eight bytes, of the item at offset `at`.
#[tactic(auto, unfolding(crate::specs::Reading::boolean_value_at))]
fn boolean_of(at: usize, bytes: &[u8]) -> Result<bool, TtlvFault>
    requires { 8 ≤ length bytes.now }
    ensures { result ≡ boolean_value_at at (big_number 8 bytes.now) }
{
    match BigEndian::read_u64(bytes) {
        0 => Ok(false),
        1 => Ok(true),
        _ => Err(TtlvFault::BadBoolean(at)),
    }
}

/// The text of the bytes, of the item at offset `at`.
#[tactic(auto, using(crate::proofs::Steps::text_right, crate::proofs::Steps::text_wrong))]
fn text_of(alloc: Global, at: usize, bytes: &[u8]) -> Result<Text, TtlvFault>
    ensures { GivesContent (λ t. t) result (text_value_at at bytes.now) }
{
    match std::str::from_utf8(bytes) {
        Ok(text) => {
            let text = Text::copied(alloc, text)?;
            Ok(text)
        }
        Err(_) => Err(TtlvFault::BadText(at)),
    }
}
