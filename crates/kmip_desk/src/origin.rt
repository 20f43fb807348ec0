//! What a text says of where, when and for which keys a progress was saved.
ghost use Rattle.std.specs.Prelude.{◌≡◌, IfOk, IfSome, string_bytes};

use kmip_belief::key_words;
use kmip_plan::Key;
use kmip_run_record::usage_words;
use kmip_ttlv::NoMemory;
use std::alloc::{AllocError, Global};

/// The first line of the text.
const HEAD: &str = "kmipctl origin 1";

/// The server of a run with `--loopback`, as it stands in the text.
pub const LOOPBACK_SERVER: &str = "loopback";

/// The field of a key whose attribute is a mask.
const USAGE: &str = "usage";

/// Where, when and for which keys a progress was saved.
#[derive(Drop)]
pub struct Origin {
    /// The text that says so.
    pub(crate) text: String,
    /// The server, as it stands in the text.
    server: String,
    /// When, in seconds since the start of 1970.
    kept: u64,
    /// The keys, as `key_words` has them, in the order of the plan.
    keys: Vec<String>,
}

impl Origin {
    /// What a text says; none if it does not say where a progress was saved.
    ///
    /// # Errors
    /// If memory runs out.
    pub fn read(alloc: Global, text: String) -> Result<Option<Origin>, AllocError>
        // The text of it is this one.
        ensures { IfOk result (λ r. IfSome r (λ origin.
            string_bytes origin.text ≡ string_bytes text)) }
    {
        let Some((server, kept, keys)) = parts_of(alloc, text.as_str())? else {
            return Ok(None);
        };
        Ok(Some(Origin {
            text,
            server,
            kept,
            keys,
        }))
    }

    /// The text that says so.
    pub(crate) fn text(&self) -> &str
        ensures { result.now ≡ string_bytes self.now.text }
    {
        self.text.as_str()
    }

    /// The server, as it stands in the text.
    pub fn server(&self) -> &str {
        self.server.as_str()
    }

    /// When the progress was saved, in seconds since the start of 1970.
    pub fn kept(&self) -> u64 {
        self.kept
    }

    /// Whether a run with `--loopback` saved the progress, whose server is gone.
    pub fn is_rehearsal(&self) -> bool {
        self.server.as_str() == LOOPBACK_SERVER
    }

    /// Whether the progress was saved against this server. No server of a run with `--loopback` is that of another
    /// run.
    pub(crate) fn is_of(&self, server: &str) -> bool {
        self.server.as_str() == server && server != LOOPBACK_SERVER
    }

    /// The first key with other attributes than the progress was saved for, as `key 3 "b": the length is 128, and was
    /// 256`. Keys that only the plan has are left out.
    ///
    /// # Errors
    /// If memory runs out.
    pub fn difference(&self, alloc: Global, keys: &[Key]) -> Result<Option<String>, NoMemory> {
        let mut left = self.keys.as_slice();
        for key in keys {
            let Some((kept, behind)) = left.split_first() else {
                return Ok(None);
            };
            let words = key_words(alloc, key)?;
            if let Some(told) = difference_of(alloc, words.as_str(), kept.as_str())? {
                return Ok(Some(told));
            }
            left = behind;
        }
        Ok(None)
    }
}

/// The server, the time and the keys of a text; none if it does not say where a progress was saved.
///
/// # Errors
/// If memory runs out.
fn parts_of(alloc: Global, text: &str) -> Result<Option<(String, u64, Vec<String>)>, AllocError> {
    let mut lines = text.lines();
    if lines.next() != Some(HEAD) {
        return Ok(None);
    }
    let Some(server) = behind(lines.next(), "server ") else {
        return Ok(None);
    };
    let Some(Ok(kept)) = behind(lines.next(), "kept ").map(|time| time.parse::<u64>()) else {
        return Ok(None);
    };
    let mut keys = Vec::new(alloc);
    for line in lines {
        let Some(words) = line.strip_prefix("key ") else {
            return Ok(None);
        };
        keys.push(String::from_str(alloc, words)?)?;
    }
    Ok(Some((String::from_str(alloc, server)?, kept, keys)))
}

/// What stands in a line after these words; none if they do not stand there.
fn behind<'t>(line: Option<&'t str>, words: &str) -> Option<&'t str> {
    line?.strip_prefix(words)
}

/// Which attribute of a key has changed, as `"b": the length is 128, and was 256`; none if none has, or if the names
/// differ, which is a fault of the progress itself.
fn difference_of(alloc: Global, now: &str, kept: &str) -> Result<Option<String>, NoMemory> {
    let mut words = now.split_whitespace();
    let mut others = kept.split_whitespace();
    let name = words.next().unwrap_or("");
    if others.next() != Some(name) {
        return Ok(None);
    }
    for field in ["algorithm", "length", USAGE] {
        let word = words.next().unwrap_or("");
        let other = others.next().unwrap_or("");
        if word != other {
            let (is, was) = (shown(alloc, field, word)?, shown(alloc, field, other)?);
            let told = format!(in alloc; "\"{name}\": the {field} is {is}, and was {was}")?;
            return Ok(Some(told));
        }
    }
    Ok(None)
}

/// An attribute as it is shown: a usage mask in words.
fn shown(alloc: Global, field: &str, word: &str) -> Result<String, NoMemory> {
    if field == USAGE {
        if let Ok(mask) = i32::from_str_radix(word, 16) {
            return usage_words(alloc, mask);
        }
    }
    let text = String::from_str(alloc, word)?;
    Ok(text)
}
