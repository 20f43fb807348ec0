//! The writer of members of documents of JSON.
ghost use Rattle.std.specs.Prelude.{◌≡◌, ◌++◌, OnOk, false, map};
ghost use Rattle.serde_json.specs.Data.{string};
ghost use Rattle.serde_json.specs.View.{view};
ghost use Rattle.serde_json.specs.Written.{comma_if, compact_text, has_float, items_text, members_text};
ghost use Rattle.kmip_report.specs.Documents.{count, counts, numbers_of, strings, words_of};
ghost use Rattle.kmip_report.specs.Private.{member_text};
ghost use Rattle.kmip_report.specs.Members.{data_of};

use crate::bytes::push_text;
use crate::datum::Datum;
use crate::member::Member;
use kmip_ttlv::NoMemory;
use serde_json::Value;
use std::alloc::Global;

/// Appends a comma if a member or an item came before.
fn push_comma(is_later: bool, text: &mut Vec<u8>) -> Result<(), NoMemory>
    ensures { OnOk result (text.new.items ≡ text.old.items ++ comma_if is_later) }
{
    if is_later {
        push_text(b",", text)
    } else {
        push_text(b"", text)
    }
}

/// Appends a name, a colon and the value.
pub(crate) fn push_member(
    alloc: Global,
    member: &Member<'_>,
    text: &mut Vec<u8>,
) -> Result<(), NoMemory>
    ensures { OnOk result (text.new.items ≡ text.old.items ++ member_text member.now) }
{
    push_string(alloc, member.name, text)?;
    push_text(b":", text)?;
    push_datum(alloc, &member.value, text)
}

/// Appends a value.
fn push_datum(alloc: Global, datum: &Datum<'_>, text: &mut Vec<u8>) -> Result<(), NoMemory>
    ensures { OnOk result (text.new.items ≡ text.old.items ++ compact_text (data_of datum.now)) }
{
    match datum {
        Datum::Null(_) => push_leaf(alloc, &Value::from(()), text),
        Datum::Truth(is_so) => push_leaf(alloc, &Value::from(*is_so), text),
        Datum::Number(number) => push_leaf(alloc, &Value::from(*number), text),
        Datum::Signed(number) => push_count(alloc, number.cast_unsigned(), text),
        Datum::Mask(mask) => push_count(alloc, *mask, text),
        Datum::Text(word) => push_string(alloc, word, text),
        Datum::Shown(word) => push_string(alloc, word, text),
        Datum::Words(words) => push_words(alloc, words, text),
        Datum::Lines(lines) => push_words(alloc, lines, text),
        Datum::Numbers(numbers) => push_numbers(alloc, numbers, text),
    }
}

/// Appends an array of texts.
fn push_words(alloc: Global, words: &[&str], text: &mut Vec<u8>) -> Result<(), NoMemory>
    ensures { OnOk result (text.new.items
        ≡ text.old.items ++ compact_text (words_of (map (λ word. word.now) words.now))) }
{
    push_text(b"[", text)?;
    push_items(alloc, words, text)
}

/// Appends the texts, a comma between two, and the bracket that closes them.
fn push_items(alloc: Global, words: &[&str], text: &mut Vec<u8>) -> Result<(), NoMemory>
    ensures { OnOk result (text.new.items
        ≡ text.old.items ++ items_text false (strings (map (λ word. word.now) words.now))) }
{
    let mut is_later = false;
    for word in words {
        push_comma(is_later, text)?;
        push_string(alloc, word, text)?;
        is_later = true;
    }
    push_text(b"]", text)
}

/// Appends an array of numbers.
fn push_numbers(alloc: Global, numbers: &[u32], text: &mut Vec<u8>) -> Result<(), NoMemory>
    ensures { OnOk result (text.new.items
        ≡ text.old.items ++ compact_text (numbers_of numbers.now)) }
{
    push_text(b"[", text)?;
    push_counts(alloc, numbers, text)
}

/// Appends the numbers, a comma between two, and the bracket that closes them.
fn push_counts(alloc: Global, numbers: &[u32], text: &mut Vec<u8>) -> Result<(), NoMemory>
    ensures { OnOk result (text.new.items
        ≡ text.old.items ++ items_text false (counts numbers.now)) }
{
    let mut is_later = false;
    for number in numbers {
        push_comma(is_later, text)?;
        push_count(alloc, *number, text)?;
        is_later = true;
    }
    push_text(b"]", text)
}

/// Appends a number from 0.
fn push_count(alloc: Global, number: u32, text: &mut Vec<u8>) -> Result<(), NoMemory>
    ensures { OnOk result (text.new.items ≡ text.old.items ++ compact_text (count number)) }
{
    push_leaf(alloc, &Value::from(u64::from(number)), text)
}

/// Appends a text in quotation marks, with JSON's escapes.
fn push_string(alloc: Global, word: &str, text: &mut Vec<u8>) -> Result<(), NoMemory>
    ensures { OnOk result (text.new.items ≡ text.old.items ++ compact_text (string word.now)) }
{
    let value = Value::try_from_str(alloc, word)?;
    push_leaf(alloc, &value, text)
}

/// Appends the text of a value that has no fraction.
fn push_leaf(alloc: Global, value: &Value, text: &mut Vec<u8>) -> Result<(), NoMemory>
    requires { has_float (view value.now) ≡ false }
    ensures { OnOk result (text.new.items ≡ text.old.items ++ compact_text (view value.now)) }
{
    let written = value.to_vec(alloc)?;
    push_text(written.as_slice(), text)
}
