//! What a server answers about an object, in words.

use crate::reasons::push_reason;
use kmip_batch_items::{Attrs, Outcome};
use kmip_objects::standard::OBJECT_TYPE_SYMMETRIC_KEY;
use kmip_plan::{Key, algorithm_word};
use kmip_trace::{push_outcome, usage_text};
use kmip_ttlv::{NoMemory, Text, plain_text};
use std::alloc::Global;
use std::str::from_utf8;

/// Appends how an operation about the key of this name went: a refusal with its reason, and that the
/// attributes are of another name, or of none.
///
/// # Errors
/// Where there is no memory.
pub fn push_answer_about(
    alloc: Global,
    name: &[u8],
    outcome: &Outcome,
    text: &mut String,
) -> Result<(), NoMemory> {
    match outcome {
        Outcome::Failed(Some(reason)) => {
            text.push_str("refused, ")?;
            push_reason(alloc, *reason, text)?;
            Ok(())
        }
        Outcome::Attributes(_, attrs) => {
            push_other_name(alloc, name, &attrs.name, text)?;
            push_success(alloc, outcome, text)
        }
        Outcome::Failed(None)
        | Outcome::Created(_)
        | Outcome::Located(_)
        | Outcome::Activated(_)
        | Outcome::Revoked(_)
        | Outcome::Destroyed(_) => push_success(alloc, outcome, text),
    }
}

/// Appends which name is told of an object, where it is not this one.
fn push_other_name(
    alloc: Global,
    asked: &[u8],
    name: &Option<Text>,
    text: &mut String,
) -> Result<(), NoMemory> {
    let Some(name) = name else {
        text.push_str("unnamed, ")?;
        return Ok(());
    };
    if name.as_str().as_bytes() == asked {
        return Ok(());
    }
    let name = plain_text(alloc, name.as_str())?;
    text.push_str("named ")?;
    text.push_str(name.as_str())?;
    text.push_str(", ")?;
    Ok(())
}

/// Appends how an operation went that has no reason to tell.
fn push_success(alloc: Global, outcome: &Outcome, text: &mut String) -> Result<(), NoMemory> {
    let mut words = Vec::new(alloc);
    push_outcome(alloc, outcome, &mut words)?;
    text.push_str(from_utf8(words.as_slice()).unwrap_or(""))?;
    Ok(())
}

/// Appends what an object of the key of this name is, as far as it was told: how the operation went,
/// and after it the attributes, as `1014 is Active, AES 256 encrypt decrypt`.
///
/// # Errors
/// Where there is no memory.
pub(crate) fn push_object(
    alloc: Global,
    name: &[u8],
    outcome: &Outcome,
    text: &mut String,
) -> Result<(), NoMemory> {
    push_answer_about(alloc, name, outcome, text)?;
    if let Outcome::Attributes(_, attrs) = outcome {
        push_attributes(alloc, attrs, text)?;
    }
    Ok(())
}

/// Appends which attributes of a key are told.
fn push_attributes(alloc: Global, attrs: &Attrs, text: &mut String) -> Result<(), NoMemory> {
    match attrs.object_type {
        Some(OBJECT_TYPE_SYMMETRIC_KEY) => text.push_str(",")?,
        Some(_) => text.push_str(", no symmetric key,")?,
        None => text.push_str(", no object type,")?,
    }
    match attrs.algorithm {
        Some(algorithm) => push_algorithm(alloc, algorithm, text)?,
        None => text.push_str(" no algorithm")?,
    }
    match attrs.length {
        Some(length) => push_length(alloc, length, text)?,
        None => text.push_str(" no length")?,
    }
    match attrs.usage {
        Some(usage) => push_usage(alloc, usage, text)?,
        None => text.push_str(" no usage")?,
    }
    Ok(())
}

/// Appends the attributes that a plan wants of a key, as ` AES 128 encrypt decrypt`.
///
/// # Errors
/// Where there is no memory.
pub(crate) fn push_wanted(alloc: Global, key: &Key, text: &mut String) -> Result<(), NoMemory> {
    push_algorithm(alloc, key.attrs.algorithm, text)?;
    push_length(alloc, key.attrs.length, text)?;
    push_usage(alloc, key.attrs.usage, text)
}

fn push_algorithm(alloc: Global, algorithm: u32, text: &mut String) -> Result<(), NoMemory> {
    match algorithm_word(algorithm) {
        Some(word) => {
            text.push_str(" ")?;
            text.push_str(word)?;
        }
        None => {
            let number = format!(in alloc; " algorithm {algorithm}")?;
            text.push_str(number.as_str())?;
        }
    }
    Ok(())
}

fn push_length(alloc: Global, length: i32, text: &mut String) -> Result<(), NoMemory> {
    let length = format!(in alloc; " {length}")?;
    text.push_str(length.as_str())?;
    Ok(())
}

/// The words of a usage mask, as `encrypt decrypt`, and the mask in hexadecimal if it has other bits.
///
/// # Errors
/// If memory runs out.
pub fn usage_words(alloc: Global, usage: i32) -> Result<String, NoMemory> {
    let words = usage_text(alloc, usage)?;
    let words = String::from_str(alloc, words.as_str().trim_start())?;
    Ok(words)
}

/// Appends the words of a usage mask, each after a space, and the mask in hexadecimal if it has other bits.
fn push_usage(alloc: Global, usage: i32, text: &mut String) -> Result<(), NoMemory> {
    let words = usage_text(alloc, usage)?;
    text.push_str(words.as_str())?;
    Ok(())
}
