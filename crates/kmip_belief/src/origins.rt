//! The text that says against which server, and for which keys, a progress was saved.
ghost use Rattle.std.specs.Prelude.{
  ◌≡◌,
  ◌≤◌,
  ◌≢◌,
  ◌++◌,
  ◌∷◌,
  List,
  ℕ,
  IfOk,
  IfSome,
  None,
  OnOk,
  Some,
  length,
  option_map,
  string_bytes,
  take,
};
ghost use Rattle.std.specs.Fmt.{decimal};
ghost use Rattle.std.specs.Int.{cast_unsigned, w32};
ghost use Rattle.kmip_report.specs.Pieces.{mask_digits};
ghost use Rattle.kmip_belief.specs.Origins.{
  HasNoLineFeed,
  IsSavedFor,
  algorithm_text,
  key_line,
  key_words,
  key_lines,
  origin_head,
  origin_text,
};

use kmip_plan::{Key, algorithm_word};
use kmip_report::push_text;
use kmip_ttlv::NoMemory;
use std::alloc::Global;

/// Appends the text of a progress that is saved against this server, at a time in seconds since the start of 1970, for
/// these keys.
///
/// # Errors
/// If memory runs out. A part may have been appended then.
pub fn push_origin(
    alloc: Global,
    server: &str,
    kept: u64,
    keys: &[Key],
    text: &mut Vec<u8>,
) -> Result<(), NoMemory>
    // What is appended is exactly the text of these.
    ensures { OnOk result (text.new.items
        ≡ text.old.items ++ origin_text server.now (decimal kept) keys.now) }
{
    push_head(server, text)?;
    push_number(alloc, kept, text)?;
    push_text(b"\n", text)?;
    push_key_lines(alloc, keys, text)
}

/// For how many of these keys, from the first on, a text says that the progress was saved against this server. None if
/// it does not say so.
///
/// # Errors
/// If memory runs out.
pub fn keys_saved(
    alloc: Global,
    text: &[u8],
    server: &str,
    keys: &[Key],
) -> Result<Option<usize>, NoMemory>
    // The text is that of a progress that was saved against this server for so many of the keys.
    ensures saved { IfOk result (λ r. IfSome r (λ count.
        IsSavedFor server.now keys.now count text.now)) }
    // Of the text for all of the keys, at any time, it is all of them.
    ensures all { (kept : List ℕ) → HasNoLineFeed kept
        → text.now ≡ origin_text server.now kept keys.now
        → IfOk result (λ r. r ≡ Some (length keys.now)) }
{
    let mut head = Vec::new(alloc);
    push_head(server, &mut head)?;
    let Some(rest) = behind(text, head.as_slice()) else {
        return Ok(None);
    };
    let Some(lines) = behind_line(rest) else {
        return Ok(None);
    };
    keys_in(alloc, lines, keys)
}

/// How many of these keys, from the first on, are those of the lines. None if the lines are others.
///
/// # Errors
/// If memory runs out.
fn keys_in(alloc: Global, lines: &[u8], keys: &[Key]) -> Result<Option<usize>, NoMemory>
    ensures saved { IfOk result (λ r. IfSome r (λ count.
        (count ≤ length keys.now) × (lines.now ≡ key_lines (take count keys.now)))) }
    ensures all { lines.now ≡ key_lines keys.now
        → IfOk result (λ r. r ≡ Some (length keys.now)) }
{
    let mut rest = lines;
    for place in 0..keys.len() {
        if rest.is_empty() {
            return Ok(Some(place));
        }
        let mut line = Vec::new(alloc);
        push_key_line(alloc, &keys[place], &mut line)?;
        let Some(more) = behind(rest, line.as_slice()) else {
            return Ok(None);
        };
        rest = more;
    }
    if rest.is_empty() {
        return Ok(Some(keys.len()));
    }
    Ok(None)
}

/// The bytes after these first ones. None if they begin with others.
fn behind<'t>(bytes: &'t [u8], front: &[u8]) -> Option<&'t [u8]>
    ensures found { IfSome result (λ rest. bytes.now ≡ front.now ++ rest.now) }
    ensures none { result ≡ None → (rest : List ℕ) → bytes.now ≢ front.now ++ rest }
{
    if bytes.starts_with(front) {
        return Some(&bytes[front.len()..]);
    }
    None
}

/// The bytes after the first line feed. None if there is none.
fn behind_line(bytes: &[u8]) -> Option<&[u8]>
    ensures found { IfSome result (λ rest. (line : List ℕ) × HasNoLineFeed line
        × (bytes.now ≡ line ++ 10 ∷ rest.now)) }
    ensures all { (line rest : List ℕ) → HasNoLineFeed line → bytes.now ≡ line ++ 10 ∷ rest
        → option_map (λ r. r.now) result ≡ Some rest }
{
    for place in 0..bytes.len() {
        if bytes[place] == b'\n' {
            return Some(&bytes[place + 1..]);
        }
    }
    None
}

/// Appends the text before the time.
fn push_head(server: &str, text: &mut Vec<u8>) -> Result<(), NoMemory>
    ensures { OnOk result (text.new.items ≡ text.old.items ++ origin_head server.now) }
{
    push_text(b"kmipctl origin 1\nserver ", text)?;
    push_text(server.as_bytes(), text)?;
    push_text(b"\nkept ", text)
}

/// Appends the lines of keys.
fn push_key_lines(alloc: Global, keys: &[Key], text: &mut Vec<u8>) -> Result<(), NoMemory>
    ensures { OnOk result (text.new.items ≡ text.old.items ++ key_lines keys.now) }
{
    for key in keys {
        push_key_line(alloc, key, text)?;
    }
    Ok(())
}

/// Appends the line of a key.
fn push_key_line(alloc: Global, key: &Key, text: &mut Vec<u8>) -> Result<(), NoMemory>
    ensures { OnOk result (text.new.items ≡ text.old.items ++ key_line key.now) }
{
    let words = key_words(alloc, key)?;
    push_text(b"key ", text)?;
    push_text(words.as_bytes(), text)?;
    push_text(b"\n", text)
}

/// The name of a key and its attributes, as `k1 AES 256 0000000c`.
///
/// # Errors
/// If memory runs out.
pub fn key_words(alloc: Global, key: &Key) -> Result<String, NoMemory>
    // They are exactly these words.
    ensures { IfOk result (λ text. string_bytes text ≡ key_words key.now) }
{
    let name = key.attrs.name.as_str();
    let algorithm = algorithm_text(key.attrs.algorithm);
    let length = key.attrs.length;
    let mask = mask_text(alloc, key.attrs.usage)?;
    let words = format!(in alloc; "{name} {algorithm} {length} {mask}")?;
    Ok(words)
}

/// A Cryptographic Usage Mask in eight hexadecimal digits.
fn mask_text(alloc: Global, usage: i32) -> Result<String, NoMemory>
    ensures { IfOk result (λ text. string_bytes text ≡ mask_digits (cast_unsigned w32 usage)) }
{
    let digits = hex::encode(alloc, &usage.cast_unsigned().to_be_bytes())?;
    Ok(digits)
}

/// The word of a plan for an algorithm; nothing for one outside the profile.
fn algorithm_text(algorithm: u32) -> &'static str
    ensures { result.now ≡ algorithm_text algorithm }
{
    match algorithm_word(algorithm) {
        Some(word) => word,
        None => "",
    }
}

/// Appends a number in decimal.
fn push_number(alloc: Global, number: u64, text: &mut Vec<u8>) -> Result<(), NoMemory>
    ensures { OnOk result (text.new.items ≡ text.old.items ++ decimal number) }
{
    let digits = format!(in alloc; "{number}")?;
    push_text(digits.as_bytes(), text)
}
