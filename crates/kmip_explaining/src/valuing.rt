//! The values of a plan, as they are shown to whoever wrote it.

use std::alloc::AllocError;
use toml::Value;
use toml::value::Array;

/// The most characters of a text that are shown, and the most elements of an array (own).
const MOST_SHOWN: usize = 64;

/// What of the keys of an earlier plan stays.
pub(crate) const KEEP_THE_ORDER: &str = "the earlier keys must come first, in the same order";

/// Appends a text in quotation marks, with what does not print escaped. Of a long one the front stands
/// there, and two dots behind it.
pub(crate) fn push_quoted(out: &mut String, text: &str) -> Result<(), AllocError> {
    match front_of(text) {
        Some(front) => write!(out, "{front:?}.."),
        None => write!(out, "{text:?}"),
    }
}

/// What is shown of a text that is too long; none where it is not.
fn front_of(text: &str) -> Option<&str> {
    let (end, _) = text.char_indices().nth(MOST_SHOWN)?;
    text.get(..end)
}

/// Appends a value as it stands in a plan, and the word `missing` for none.
pub(crate) fn push_value(out: &mut String, value: Option<&Value>) -> Result<(), AllocError> {
    match value {
        Some(Value::Array(array)) => push_array(out, array),
        Some(Value::Table(_)) => out.push_str("a table"),
        Some(value) => push_element(out, value),
        None => out.push_str("missing"),
    }
}

/// Appends an array in brackets.
fn push_array(out: &mut String, array: &Array) -> Result<(), AllocError> {
    out.push('[')?;
    for (index, value) in array.as_slice().iter().take(MOST_SHOWN).enumerate() {
        if index > 0 {
            out.push_str(", ")?;
        }
        push_element(out, value)?;
    }
    if array.len() > MOST_SHOWN {
        out.push_str(", ..")?;
    }
    out.push_str("]")
}

/// Appends a value; of one that holds others the brackets alone.
fn push_element(out: &mut String, value: &Value) -> Result<(), AllocError> {
    match value {
        Value::String(text) => push_quoted(out, text.as_str()),
        Value::Integer(number) => write!(out, "{number}"),
        Value::Float(number) => write!(out, "{number:?}"),
        Value::Boolean(flag) => write!(out, "{flag}"),
        Value::Datetime(time) => write!(out, "{time}"),
        Value::Array(_) => out.push_str("[..]"),
        Value::Table(_) => out.push_str("{..}"),
    }
}

/// Appends the path of a plan's file, the line, if it is known, and what ends the place.
pub(crate) fn push_place(
    out: &mut String,
    path: &str,
    line: Option<usize>,
) -> Result<(), AllocError> {
    match line {
        Some(line) => write!(out, "{path}:{line}: "),
        None => write!(out, "{path}: "),
    }
}

/// Appends the place of a key, and its name, if it has one.
pub(crate) fn push_key(
    out: &mut String,
    place: usize,
    name: Option<&str>,
) -> Result<(), AllocError> {
    write!(out, "key {place}")?;
    if let Some(name) = name {
        out.push(' ')?;
        push_quoted(out, name)?;
    }
    out.push_str(": ")
}
