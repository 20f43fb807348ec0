//! The words of a progress text.
ghost use Rattle.std.specs.Prelude.{◌≡◌, IfOk, map, option_map};
ghost use Rattle.std.specs.Result.{result_ok};
ghost use Rattle.std.specs.List.{list_all};
ghost use Rattle.hex.specs.Hex.{decode_of};
ghost use Rattle.kmip_progress.specs.Reading.{parts, leads_on, need, GivesProgress};
ghost use Rattle.kmip_progress.specs.Words.{done_of_word, reason_of_word, reason_in, identifier_in, identifier_of_word, is_spelt, is_digit, is_number, number_in};

use crate::progress_fault::ProgressFault;
use hex::FromHexError;
use kmip_objects::is_identifier;
use kmip_plan::Target;
use kmip_ttlv::Text;
use std::alloc::{AllocError, Global};

/// The lines of a text, and what comes after the last line feed.
pub(crate) fn lines(alloc: Global, text: &str) -> Result<Vec<&str>, AllocError>
    ensures { IfOk result (λ lines. map (λ line. line.now) lines.items ≡ parts 0x0A text.now) }
{
    text.split('\n').collect(alloc)
}

/// The words of a line, one space between.
pub(crate) fn words(alloc: Global, line: &str) -> Result<Vec<&str>, AllocError>
    ensures { IfOk result (λ words. map (λ word. word.now) words.items ≡ parts 0x20 line.now) }
{
    line.split(' ').collect(alloc)
}

/// Whether the way to a target leads on to another one.
pub(crate) fn leads_on(target: Target, further: Target) -> bool
    ensures { result ≡ leads_on target further }
{
    target.leads_on(further)
}

/// How many steps are done: one digit, 0 to 4.
pub(crate) fn done_of_word(word: &str) -> Option<usize>
    ensures { result ≡ done_of_word word.now }
{
    match word {
        "0" => Some(0),
        "1" => Some(1),
        "2" => Some(2),
        "3" => Some(3),
        "4" => Some(4),
        _ => None,
    }
}

/// The reason of a Revoke that is no compromise.
fn reason_of_word(word: &str) -> Option<u32>
    ensures { result ≡ reason_of_word word.now }
{
    match word {
        "1" => Some(1),
        "4" => Some(4),
        "5" => Some(5),
        "6" => Some(6),
        "7" => Some(7),
        _ => None,
    }
}

/// A reason where a Revoke leads to the target, else a hyphen.
pub(crate) fn reason_in(target: Target, word: &str) -> Option<Option<u32>>
    ensures { result ≡ reason_in target word.now }
{
    if target.is_revoked() {
        return reason_of_word(word).map(Some);
    }
    if word == "-" { Some(None) } else { None }
}

/// An identifier in lower-case hexadecimal, or a hyphen.
pub(crate) fn identifier_in(alloc: Global, word: &str) -> Result<Option<Text>, ProgressFault>
    ensures { GivesProgress (λ identifier. identifier) result
        (need ProgressFault.BadText (identifier_in word.now)) }
{
    if word == "-" {
        return Ok(None);
    }
    let identifier = identifier_of_word(alloc, word)?;
    Ok(Some(identifier))
}

/// The bytes whose lower-case hexadecimal the word is, where they are an identifier.
fn identifier_of_word(alloc: Global, word: &str) -> Result<Text, ProgressFault>
    ensures { GivesProgress (λ identifier. identifier) result
        (need ProgressFault.BadText (identifier_of_word word.now)) }
{
    let bytes = bytes_of_word(alloc, word)?;
    let Ok(text) = String::from_utf8(bytes) else {
        return Err(ProgressFault::BadText);
    };
    if !is_spelt(alloc, word, text.as_str())? {
        return Err(ProgressFault::BadText);
    }
    Ok(Text::from_string(text))
}

/// The bytes that a word is the hexadecimal of, in either case.
fn bytes_of_word(alloc: Global, word: &str) -> Result<Vec<u8>, ProgressFault>
    ensures { GivesProgress (λ bytes. bytes.items) result
        (need ProgressFault.BadText (result_ok (decode_of word.now))) }
{
    match hex::decode(alloc, word) {
        Ok(bytes) => Ok(bytes),
        Err(FromHexError::OutOfMemory) => Err(ProgressFault::NoMemory),
        Err(_) => Err(ProgressFault::BadText),
    }
}

/// Whether the word is the lower-case hexadecimal of the text, and the text an identifier.
fn is_spelt(alloc: Global, word: &str, text: &str) -> Result<bool, AllocError>
    ensures { IfOk result (λ spelt. spelt ≡ is_spelt word.now text.now) }
{
    let spelling = hex::encode(alloc, text.as_bytes())?;
    Ok(spelling.as_str() == word && is_identifier(text))
}

/// Whether the word is a decimal number without leading zeros.
fn is_number(word: &str) -> bool
    ensures { result ≡ is_number word.now }
{
    let digits = word.as_bytes();
    1 <= digits.len() && are_digits(digits) && (digits.len() == 1 || digits[0] != b'0')
}

/// Whether each byte is a decimal digit.
fn are_digits(bytes: &[u8]) -> bool
    ensures { result ≡ list_all is_digit bytes.now }
{
    bytes.iter().all(|byte| b'0' <= *byte && *byte <= b'9')
}

/// The number of a line of two words, `end` and a number.
pub(crate) fn number_in<'a>(words: &[&'a str]) -> Option<&'a str>
    ensures { option_map (λ number. number.now) result
        ≡ number_in (map (λ word. word.now) words.now) }
{
    match words {
        [word, number] if *word == "end" && is_number(number) => Some(number),
        _ => None,
    }
}
