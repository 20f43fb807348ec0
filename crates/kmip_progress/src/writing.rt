//! A progress as a text.
ghost use Rattle.std.specs.Prelude.{◌≡◌, ◌≤◌, ◌++◌, ◌∷◌, [], IfOk, OnOk, IsTrue, decimal, string_bytes, length};
ghost use Rattle.hex.specs.Hex.{encode_lower};
ghost use Rattle.kmip_progress.specs.declared.format.Format.TheVariants as formats;
ghost use Rattle.kmip_progress.specs.Suiting.{Suits, is_known, has_text, are_texts};
ghost use Rattle.kmip_progress.specs.Private.{key_lines};
ghost use Rattle.kmip_progress.specs.Texts.{end_line, key_line, progress_text, reason_for};
ghost use Rattle.kmip_progress.specs.Words.{reason_word, identifier_word};

use crate::known::Known;
use kmip_plan::Key;
use std::alloc::{AllocError, Global};

/// The first line of each text, with its line feed.
pub(crate) const HEAD: &str = "kmip-progress 2\n";

/// The text of what is known of these keys. One buffer is made for it, and no string beside it.
pub(crate) fn progress_text(
    alloc: Global,
    keys: &[Key],
    known: &[Known],
) -> Result<String, AllocError>
    requires { Suits keys.now known.now }
    ensures text { IfOk result (λ text. string_bytes text ≡ progress_text keys.now known.now) }
    ensures utf8 { OnOk result (IsTrue (are_texts known.now)) }
{
    let mut text = String::with_capacity(alloc, room_for(keys, known))?;
    text.push_str(HEAD)?;
    push_lines(&mut text, keys, known)?;
    push_end(&mut text, keys.len())?;
    Ok(text)
}

/// How many bytes to make room for. No text of a lawful plan is longer.
pub(crate) fn room_for(keys: &[Key], known: &[Known]) -> usize {
    // The first line and the last.
    let mut room: usize = 48;
    for key in keys {
        // Beside these two: the two digits, the four spaces, the hyphen for none, the line feed.
        let words = key.attrs.name.as_str().len() + key.target.word().len();
        room = room.saturating_add(words + 8);
    }
    for one in known {
        if let Some(identifier) = &one.identifier {
            room = room.saturating_add(2 * identifier.as_str().len());
        }
    }
    room
}

/// Writes the lines of the keys at the end of a text.
fn push_lines(text: &mut String, keys: &[Key], known: &[Known]) -> Result<(), AllocError>
    requires { Suits keys.now known.now }
    ensures text { OnOk result (string_bytes text.new
        ≡ string_bytes text.old ++ key_lines keys.now known.now) }
    ensures utf8 { OnOk result (IsTrue (are_texts known.now)) }
{
    let mut rest = keys;
    for one in known {
        let Some((key, behind)) = rest.split_first() else {
            return Ok(());
        };
        push_line(text, key, one)?;
        rest = behind;
    }
    Ok(())
}

/// Writes the line of a key, with its line feed.
pub(crate) fn push_line(text: &mut String, key: &Key, known: &Known) -> Result<(), AllocError>
    requires { IsTrue (is_known known.now) }
    ensures text { OnOk result (string_bytes text.new
        ≡ string_bytes text.old ++ (key_line key.now known.now ++ 10 ∷ [])) }
    ensures utf8 { OnOk result (IsTrue (has_text known.now)) }
{
    push_word(text, key.attrs.name.as_str())?;
    push_word(text, key.target.word())?;
    push_reason(text, key)?;
    push_done(text, known.done)?;
    push_identifier(text, known)?;
    text.push('\n')?;
    Ok(())
}

/// Writes a word and a space.
fn push_word(text: &mut String, word: &str) -> Result<(), AllocError>
    ensures { OnOk result (string_bytes text.new ≡ string_bytes text.old ++ (word.now ++ 32 ∷ [])) }
{
    text.push_str(word)?;
    text.push(' ')?;
    Ok(())
}

/// Writes the reason of a key's Revoke in decimal, and a space. A hyphen stands where no Revoke
/// leads to its target.
fn push_reason(text: &mut String, key: &Key) -> Result<(), AllocError>
    ensures { OnOk result (string_bytes text.new
        ≡ string_bytes text.old ++ (reason_word (reason_for formats.Two key.now) ++ 32 ∷ [])) }
{
    if key.target.is_revoked() {
        write!(text, "{} ", key.reason)?;
    } else {
        text.push_str("- ")?;
    }
    Ok(())
}

/// Writes in decimal how many steps are done, and a space. No chain has more than four steps, so the
/// text stands here as a rule, and no number is laid out.
fn push_done(text: &mut String, done: usize) -> Result<(), AllocError>
    ensures { OnOk result (string_bytes text.new
        ≡ string_bytes text.old ++ (decimal done ++ 32 ∷ [])) }
{
    match done {
        0 => text.push_str("0 ")?,
        1 => text.push_str("1 ")?,
        2 => text.push_str("2 ")?,
        3 => text.push_str("3 ")?,
        4 => text.push_str("4 ")?,
        _ => write!(text, "{done} ")?,
    }
    Ok(())
}

/// Writes an identifier in lower-case hexadecimal; a hyphen where none is known.
fn push_identifier(text: &mut String, known: &Known) -> Result<(), AllocError>
    requires { IsTrue (is_known known.now) }
    ensures word { OnOk result (string_bytes text.new
        ≡ string_bytes text.old ++ identifier_word known.now.identifier) }
    ensures utf8 { OnOk result (IsTrue (has_text known.now)) }
{
    match &known.identifier {
        Some(identifier) => push_hex(text, identifier.as_str().as_bytes())?,
        None => text.push_str("-")?,
    }
    Ok(())
}

/// Writes the bytes of an identifier in lower-case hexadecimal.
fn push_hex(text: &mut String, bytes: &[u8]) -> Result<(), AllocError>
    requires { length bytes.now ≤ 64 }
    ensures { OnOk result (string_bytes text.new
        ≡ string_bytes text.old ++ encode_lower bytes.now) }
{
    // The room for the longest identifier. That neither call fails is proved.
    let mut digits = [0u8; 128];
    let spelt = &mut digits[..2 * bytes.len()];
    hex::encode_to_slice(bytes, spelt).unwrap();
    text.push_str(std::str::from_utf8(spelt).unwrap())?;
    Ok(())
}

/// Writes the last line, with its line feed.
pub(crate) fn push_end(text: &mut String, count: usize) -> Result<(), AllocError>
    ensures { OnOk result (string_bytes text.new
        ≡ string_bytes text.old ++ (end_line count ++ 10 ∷ [])) }
{
    write!(text, "end {count}\n")?;
    Ok(())
}
