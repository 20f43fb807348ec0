//! A usage mask, in words.
ghost use Rattle.std.specs.Prelude.{◌≡◌, ◌++◌, IfOk, OnOk, map, string_bytes};
ghost use Rattle.std.specs.List.{flat_map};
ghost use Rattle.kmip_trace.specs.UsageWords.{
  mask_text,
  named_usages,
  usage_text,
  usage_word,
};

use kmip_objects::is_usage;
use kmip_ttlv::NoMemory;
use std::alloc::Global;

/// The usages that have a word, each with its bit of the Cryptographic Usage Mask.
///
/// Source: KMIP 2.1, Enumerations and Masks, Cryptographic Usage Mask. Export is of KMIP 1. The
/// words are own.
const USAGES: [(&str, u32); 9] = [
    ("sign", 1),
    ("verify", 2),
    ("encrypt", 4),
    ("decrypt", 8),
    ("wrap-key", 16),
    ("unwrap-key", 32),
    ("export", 64),
    ("mac-generate", 128),
    ("mac-verify", 256),
];

/// The usages that have a word, each with its bit of the mask.
fn named_usages() -> &'static [(&'static str, u32)]
    ensures { map (λ usage. (usage.0.now, usage.1)) result.now ≡ named_usages }
{
    &USAGES
}

/// A usage mask in words, a space before each, as ` encrypt decrypt`. A mask with a bit that has no
/// word, or with no bit, is after them in eight hexadecimal digits, as ` sign of mask 00000201`.
///
/// # Errors
/// If memory runs out.
pub fn usage_text(alloc: Global, usage: i32) -> Result<String, NoMemory>
    ensures { IfOk result (λ text. string_bytes text ≡ usage_text usage) }
{
    let mut text = String::new(alloc);
    push_usages(usage.cast_unsigned(), &mut text)?;
    push_mask(alloc, usage, &mut text)?;
    Ok(text)
}

/// Appends the words of the usages whose bits are set, a space before each.
fn push_usages(bits: u32, text: &mut String) -> Result<(), NoMemory>
    ensures { OnOk result (string_bytes text.new
        ≡ string_bytes text.old ++ flat_map (usage_word bits) named_usages) }
{
    push_words(bits, named_usages(), text)?;
    Ok(())
}

/// Appends the words of those of these usages whose bits are set, a space before each.
fn push_words(bits: u32, usages: &[(&str, u32)], text: &mut String) -> Result<(), NoMemory>
    ensures { OnOk result (string_bytes text.new ≡ string_bytes text.old
        ++ flat_map (λ usage. usage_word bits (usage.0.now, usage.1)) usages.now) }
{
    for usage in usages {
        push_word(bits, usage.0, usage.1, text)?;
    }
    Ok(())
}

/// Appends a space and the word of a usage, if its bit is set.
fn push_word(bits: u32, word: &str, bit: u32, text: &mut String) -> Result<(), NoMemory>
    ensures { OnOk result (string_bytes text.new
        ≡ string_bytes text.old ++ usage_word bits (word.now, bit)) }
{
    if bits & bit == 0 {
        return Ok(());
    }
    text.push_str(" ")?;
    text.push_str(word)?;
    Ok(())
}

/// Appends the whole mask in hexadecimal, if it has a bit that has no word, or no bit.
fn push_mask(alloc: Global, usage: i32, text: &mut String) -> Result<(), NoMemory>
    ensures { OnOk result (string_bytes text.new ≡ string_bytes text.old ++ mask_text usage) }
{
    if is_usage(usage) {
        return Ok(());
    }
    let digits = hex::encode(alloc, &usage.to_be_bytes())?;
    text.push_str(" of mask ")?;
    text.push_str(digits.as_str())?;
    Ok(())
}
