//! Usages of keys that do not suit their algorithm.

use crate::placing::{Sought, field_at, key_at, line_of, name_of};
use crate::valuing::{push_key, push_place};
use kmip_ttlv::NoMemory;
use std::alloc::Global;
use toml::Value;

/// How many warnings are printed (own).
const MOST_WARNINGS: usize = 20;

/// Warns on standard error of each key of the plan in the file at this path that has a usage which its algorithm does
/// not have. Nothing if the text is not a plan. It has no clause.
///
/// # Errors
/// If memory runs out; some warnings may be printed then.
pub fn warn_of_usages(rt: &HostRuntime, path: &str, plan: &str) -> Result<(), NoMemory> {
    let alloc = rt.alloc();
    let table = match toml::table_from_str(alloc, plan) {
        Ok(table) => table,
        Err(fault) if fault.is_memory() => return Err(NoMemory),
        Err(_) => return Ok(()),
    };
    let count = match table.get("key").and_then(Value::as_array) {
        Some(keys) => keys.len(),
        None => 0,
    };
    let mut left = MOST_WARNINGS;
    for place in 1..=count {
        let Some(key) = key_at(&table, place) else {
            return Ok(());
        };
        let Some(unsuited) = unsuited(key) else {
            continue;
        };
        if left == 0 {
            return Ok(());
        }
        left -= 1;
        let line = warning(alloc, path, plan, place, key, unsuited)?;
        let _ = rt.eprintln(line.as_str());
    }
    Ok(())
}

/// The line that warns of a usage of the key at a place.
fn warning(
    alloc: Global,
    path: &str,
    plan: &str,
    place: usize,
    key: &Value,
    (index, word): (usize, &str),
) -> Result<String, NoMemory> {
    let algorithm = field_at(key, "algorithm")
        .and_then(Value::as_str)
        .unwrap_or("");
    let line = line_of(alloc, plan, Sought::Element(place, "usage", index))?;
    let mut out = String::from_str(alloc, "warning: ")?;
    push_place(&mut out, path, line)?;
    push_key(&mut out, place, name_of(key))?;
    write!(
        out,
        "the usage \"{word}\" does not suit {algorithm}: {}",
        suited_words(algorithm)
    )?;
    Ok(out)
}

/// The first usage of a key that does not suit its algorithm, with its index.
fn unsuited(key: &Value) -> Option<(usize, &str)> {
    let algorithm = field_at(key, "algorithm")?.as_str()?;
    let usages = field_at(key, "usage")?.as_array()?;
    for (index, value) in usages.as_slice().iter().enumerate() {
        match value.as_str() {
            Some(word) if !suits(algorithm, word) => return Some((index, word)),
            Some(_) | None => {}
        }
    }
    None
}

/// Whether a usage suits an algorithm: AES enciphers, and HMAC-SHA256 authenticates.
fn suits(algorithm: &str, word: &str) -> bool {
    match algorithm {
        "AES" => matches!(word, "encrypt" | "decrypt" | "wrap-key" | "unwrap-key"),
        _ => matches!(word, "mac-generate" | "mac-verify"),
    }
}

/// The usages that suit an algorithm, in words.
fn suited_words(algorithm: &str) -> &'static str {
    match algorithm {
        "AES" => "use encrypt, decrypt, wrap-key or unwrap-key",
        _ => "use mac-generate or mac-verify",
    }
}
