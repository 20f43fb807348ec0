//! The writer of values in text.
ghost use Rattle.std.specs.Prelude.{◌≡◌, ◌++◌, OnOk, map};
ghost use Rattle.std.specs.Fmt.{decimal, signed_decimal};
ghost use Rattle.kmip_ttlv.specs.Showing.{plain_text, shown_truth};
ghost use Rattle.kmip_report.specs.Members.{text_of};
ghost use Rattle.kmip_report.specs.Pieces.{
  fed_line,
  fed_lines,
  mask_digits,
  spaced,
  spaced_number,
  spaced_numbers,
  spaced_word,
};

use crate::bytes::push_text;
use crate::datum::Datum;
use kmip_ttlv::{NoMemory, plain_text};
use std::alloc::Global;

/// Appends a value in text.
pub(crate) fn push_shown(
    alloc: Global,
    datum: &Datum<'_>,
    text: &mut Vec<u8>,
) -> Result<(), NoMemory>
    ensures { OnOk result (text.new.items ≡ text.old.items ++ text_of datum.now) }
{
    match datum {
        Datum::Null(words) => push_text(words.as_bytes(), text),
        Datum::Truth(is_so) => push_truth(*is_so, text),
        Datum::Number(number) => push_number(alloc, *number, text),
        Datum::Signed(number) => push_signed(alloc, *number, text),
        Datum::Mask(mask) => push_mask(alloc, *mask, text),
        Datum::Text(word) => push_text(word.as_bytes(), text),
        Datum::Shown(word) => push_plain(alloc, word, text),
        Datum::Words(words) => push_words(words, text),
        Datum::Lines(lines) => push_lines(lines, text),
        Datum::Numbers(numbers) => push_numbers(alloc, numbers, text),
    }
}

/// Appends the word for true or false.
fn push_truth(is_so: bool, text: &mut Vec<u8>) -> Result<(), NoMemory>
    ensures { OnOk result (text.new.items ≡ text.old.items ++ shown_truth is_so) }
{
    if is_so {
        push_text(b"true", text)
    } else {
        push_text(b"false", text)
    }
}

/// Appends a number in decimal.
fn push_number(alloc: Global, number: u64, text: &mut Vec<u8>) -> Result<(), NoMemory>
    ensures { OnOk result (text.new.items ≡ text.old.items ++ decimal number) }
{
    let digits = format!(in alloc; "{number}")?;
    push_text(digits.as_bytes(), text)
}

/// Appends a number in decimal, with its sign.
fn push_signed(alloc: Global, number: i32, text: &mut Vec<u8>) -> Result<(), NoMemory>
    ensures { OnOk result (text.new.items ≡ text.old.items ++ signed_decimal number) }
{
    let digits = format!(in alloc; "{number}")?;
    push_text(digits.as_bytes(), text)
}

/// Appends a mask in eight hexadecimal digits.
fn push_mask(alloc: Global, mask: u32, text: &mut Vec<u8>) -> Result<(), NoMemory>
    ensures { OnOk result (text.new.items ≡ text.old.items ++ mask_digits mask) }
{
    let digits = hex::encode(alloc, &mask.to_be_bytes())?;
    push_text(digits.as_bytes(), text)
}

/// Appends a text in plain characters.
fn push_plain(alloc: Global, word: &str, text: &mut Vec<u8>) -> Result<(), NoMemory>
    ensures { OnOk result (text.new.items ≡ text.old.items ++ plain_text word.now) }
{
    let plain = plain_text(alloc, word)?;
    push_text(plain.as_bytes(), text)
}

/// Appends texts, each after a space.
fn push_words(words: &[&str], text: &mut Vec<u8>) -> Result<(), NoMemory>
    ensures { OnOk result (text.new.items
        ≡ text.old.items ++ spaced (map (λ word. word.now) words.now)) }
{
    for word in words {
        push_word(word, text)?;
    }
    Ok(())
}

/// Appends a space and a text.
fn push_word(word: &str, text: &mut Vec<u8>) -> Result<(), NoMemory>
    ensures { OnOk result (text.new.items ≡ text.old.items ++ spaced_word word.now) }
{
    push_text(b" ", text)?;
    push_text(word.as_bytes(), text)
}

/// Appends lines, each after a line feed.
fn push_lines(lines: &[&str], text: &mut Vec<u8>) -> Result<(), NoMemory>
    ensures { OnOk result (text.new.items
        ≡ text.old.items ++ fed_lines (map (λ line. line.now) lines.now)) }
{
    for line in lines {
        push_fed_line(line, text)?;
    }
    Ok(())
}

/// Appends a line feed and a line.
fn push_fed_line(line: &str, text: &mut Vec<u8>) -> Result<(), NoMemory>
    ensures { OnOk result (text.new.items ≡ text.old.items ++ fed_line line.now) }
{
    push_text(b"\n", text)?;
    push_text(line.as_bytes(), text)
}

/// Appends numbers in decimal, each after a space.
fn push_numbers(alloc: Global, numbers: &[u32], text: &mut Vec<u8>) -> Result<(), NoMemory>
    ensures { OnOk result (text.new.items ≡ text.old.items ++ spaced_numbers numbers.now) }
{
    for number in numbers {
        push_spaced_number(alloc, u64::from(*number), text)?;
    }
    Ok(())
}

/// Appends a space and a number in decimal.
fn push_spaced_number(alloc: Global, number: u64, text: &mut Vec<u8>) -> Result<(), NoMemory>
    ensures { OnOk result (text.new.items ≡ text.old.items ++ spaced_number number) }
{
    push_text(b" ", text)?;
    push_number(alloc, number, text)
}
