//! Items as text, to be read by people.
ghost use Rattle.std.specs.Prelude.{◌≡◌, ◌++◌, ◌∷◌, OnOk, IfOk, string_bytes};
ghost use Rattle.std.specs.Fmt.{decimal, signed_decimal};
ghost use Rattle.byteorder.specs.Endian.{big_bytes};
ghost use Rattle.hex.specs.Hex.{encode_upper};
ghost use Rattle.kmip_ttlv.specs.Node.{nodes_of};
ghost use Rattle.kmip_ttlv.specs.View.{view, views, content};
ghost use Rattle.kmip_ttlv.specs.Showing.{
  is_plain,
  shown_byte,
  quoted,
  plain_text,
  shown_bytes,
  shown_value,
  line,
  shown_lines,
  shown_all,
  shown_text,
};

use crate::item::Item;
use crate::no_memory::NoMemory;
use crate::value::Value;
use std::alloc::Global;

/// The item as text: a line for each item, with its tag, its type and its value. Below a Structure's
/// line are those of its items, two spaces further to the right.
///
/// # Errors
/// Where there is no memory for the text.
pub fn show(alloc: Global, item: &Item) -> Result<String, NoMemory>
    ensures { IfOk result (λ s. string_bytes s ≡ shown_text (view item.now)) }
{
    let mut out = String::new(alloc);
    push_lines(alloc, "", item, &mut out)?;
    Ok(out)
}

/// The text in plain characters, as it stands between the quotation marks of a shown Text String. A byte
/// from 20 to 7E (hexadecimal) is as it is, but for the quotation mark and the backslash. Each other
/// byte is a backslash and its two digits in hexadecimal.
///
/// # Errors
/// Where there is no memory for it.
pub fn plain_text(alloc: Global, text: &str) -> Result<String, NoMemory>
    ensures { IfOk result (λ s. string_bytes s ≡ plain_text text.now) }
{
    let mut out = String::new(alloc);
    push_plain(alloc, text, &mut out)?;
    Ok(out)
}

/// Appends the lines of the item, each after this indentation.
#[cycle(showing)]
fn push_lines(alloc: Global, indent: &str, item: &Item, out: &mut String) -> Result<(), NoMemory>
    ensures { OnOk result (string_bytes out.new ≡ string_bytes out.old
        ++ shown_lines indent.now (view item.now)) }
{
    push_line(alloc, indent, item, out)?;
    if let Value::Structure(items) = &item.value {
        let mut deeper = String::from_str(alloc, indent)?;
        deeper.push_str("  ")?;
        push_all(alloc, &deeper, items.as_slice(), out)?;
    }
    Ok(())
}

/// Appends the lines of the items, each after this indentation.
#[cycle(showing)]
fn push_all(alloc: Global, indent: &str, items: &[Item], out: &mut String) -> Result<(), NoMemory>
    ensures { OnOk result (string_bytes out.new ≡ string_bytes out.old
        ++ shown_all indent.now (nodes_of (views items.now))) }
{
    for item in items {
        push_lines(alloc, indent, item, out)?;
    }
    Ok(())
}

/// Appends the item's own line.
#[tactic(auto, unfolding(crate::specs::Showing::line))]
fn push_line(alloc: Global, indent: &str, item: &Item, out: &mut String) -> Result<(), NoMemory>
    ensures { OnOk result (string_bytes out.new ≡ string_bytes out.old
        ++ line indent.now item.now.tag (content item.now.value)) }
{
    out.push_str(indent)?;
    push_hex(alloc, &item.tag.number().to_be_bytes()[1..], out)?;
    out.push_str(" ")?;
    out.push_str(item.value.item_type().name())?;
    push_value(alloc, &item.value, out)?;
    out.push_str("\n")?;
    Ok(())
}

/// Appends a space and the value, and nothing for a Structure.
fn push_value(alloc: Global, value: &Value, out: &mut String) -> Result<(), NoMemory>
    ensures { OnOk result (string_bytes out.new ≡ string_bytes out.old
        ++ shown_value (content value.now)) }
{
    match value {
        Value::Structure(_) => Ok(()),
        Value::Integer(number) => push_signed(alloc, i64::from(*number), out),
        Value::LongInteger(number) => push_signed(alloc, *number, out),
        Value::BigInteger(digits) => push_bytes(alloc, digits.as_slice(), out),
        Value::Enumeration(number) => push_enumeration(alloc, *number, out),
        Value::Boolean(truth) => push_word(if *truth { "true" } else { "false" }, out),
        Value::TextString(text) => push_quoted(alloc, text.as_str(), out),
        Value::ByteString(bytes) => push_bytes(alloc, bytes.as_slice(), out),
        Value::DateTime(seconds) => push_signed(alloc, *seconds, out),
        Value::Interval(seconds) => push_unsigned(alloc, *seconds, out),
        Value::DateTimeExtended(microseconds) => push_signed(alloc, *microseconds, out),
    }
}

/// Appends a space and a signed number in decimal digits.
fn push_signed(alloc: Global, number: i64, out: &mut String) -> Result<(), NoMemory>
    ensures { OnOk result (string_bytes out.new ≡ string_bytes out.old
        ++ 32 ∷ signed_decimal number) }
{
    let digits = number.to_string(alloc)?;
    push_word(&digits, out)
}

/// Appends a space and a number in decimal digits.
fn push_unsigned(alloc: Global, number: u32, out: &mut String) -> Result<(), NoMemory>
    ensures { OnOk result (string_bytes out.new ≡ string_bytes out.old
        ++ 32 ∷ decimal number) }
{
    let digits = number.to_string(alloc)?;
    push_word(&digits, out)
}

/// Appends a space and the number of an Enumeration, in hexadecimal.
fn push_enumeration(alloc: Global, number: u32, out: &mut String) -> Result<(), NoMemory>
    ensures { OnOk result (string_bytes out.new ≡ string_bytes out.old
        ++ 32 ∷ encode_upper (big_bytes 4 number)) }
{
    out.push_str(" ")?;
    push_hex(alloc, &number.to_be_bytes(), out)
}

/// Appends a space and a word.
fn push_word(word: &str, out: &mut String) -> Result<(), NoMemory>
    ensures { OnOk result (string_bytes out.new ≡ string_bytes out.old ++ 32 ∷ word.now) }
{
    out.push_str(" ")?;
    out.push_str(word)?;
    Ok(())
}

/// Appends a space and the bytes in hexadecimal, a dash where there are none.
fn push_bytes(alloc: Global, bytes: &[u8], out: &mut String) -> Result<(), NoMemory>
    ensures { OnOk result (string_bytes out.new ≡ string_bytes out.old
        ++ 32 ∷ shown_bytes bytes.now) }
{
    if bytes.is_empty() {
        out.push_str(" -")?;
    } else {
        out.push_str(" ")?;
        push_hex(alloc, bytes, out)?;
    }
    Ok(())
}

/// Appends a space and the text between quotation marks.
fn push_quoted(alloc: Global, text: &str, out: &mut String) -> Result<(), NoMemory>
    ensures { OnOk result (string_bytes out.new ≡ string_bytes out.old
        ++ 32 ∷ quoted text.now) }
{
    out.push_str(" \"")?;
    push_plain(alloc, text, out)?;
    out.push_str("\"")?;
    Ok(())
}

/// Appends the text in plain characters.
fn push_plain(alloc: Global, text: &str, out: &mut String) -> Result<(), NoMemory>
    ensures { OnOk result (string_bytes out.new ≡ string_bytes out.old ++ plain_text text.now) }
{
    for byte in text.as_bytes() {
        push_byte(alloc, *byte, out)?;
    }
    Ok(())
}

/// Whether a byte of a text stands for itself: from 20 to 7E (hexadecimal), but for the quotation mark
/// and the backslash.
fn is_plain(byte: u8) -> bool
    ensures { result ≡ is_plain byte }
{
    b' ' <= byte && byte < 127 && byte != b'"' && byte != b'\\'
}

/// Appends a byte of a text: itself where it is plain, else a backslash and its two digits.
#[tactic(auto, unfolding(crate::specs::Showing::shown_byte))]
fn push_byte(alloc: Global, byte: u8, out: &mut String) -> Result<(), NoMemory>
    ensures { OnOk result (string_bytes out.new ≡ string_bytes out.old ++ shown_byte byte) }
{
    if is_plain(byte) {
        out.push(char::from(byte))?;
    } else {
        out.push_str("\\")?;
        push_hex(alloc, &[byte], out)?;
    }
    Ok(())
}

/// Appends the bytes in hexadecimal, with upper-case letters.
fn push_hex(alloc: Global, bytes: &[u8], out: &mut String) -> Result<(), NoMemory>
    ensures { OnOk result (string_bytes out.new ≡ string_bytes out.old
        ++ encode_upper bytes.now) }
{
    let digits = hex::encode_upper(alloc, bytes)?;
    out.push_str(&digits)?;
    Ok(())
}
