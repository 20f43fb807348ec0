//! What may stand in the fields of a key, in the words of a plan.

use toml::Value;
use toml::value::Array;

/// The place of the first key that is too many.
pub(crate) const TOO_MANY: usize = 1001;

/// What a name may be.
pub(crate) const NAMES: &str = "a string of 1 to 64 printing ASCII characters, without spaces";

/// What an algorithm may be.
pub(crate) const ALGORITHMS: &str = "\"AES\" or \"HMAC-SHA256\"";

/// What a usage may be.
pub(crate) const USAGES: &str =
    "one or more of \"sign\", \"verify\", \"encrypt\", \"decrypt\", \"wrap-key\", \
    \"unwrap-key\", \"mac-generate\" and \"mac-verify\", each once";

/// What a target may be.
pub(crate) const TARGETS: &str =
    "\"created\", \"active\", \"revoked\", \"destroyed\" or \"discarded\"";

/// What a reason may be.
pub(crate) const REASONS: &str = "\"unspecified\", \"affiliation-changed\", \"superseded\", \
    \"cessation-of-operation\" or \"privilege-withdrawn\"";

/// The lengths that keys of an algorithm may have, by the algorithm's word.
pub(crate) fn lengths_of(algorithm: &str) -> Option<&'static str> {
    match algorithm {
        "AES" => Some("128, 192 or 256"),
        "HMAC-SHA256" => Some("256"),
        _ => None,
    }
}

/// Whether the word names a usage.
fn is_usage(word: &str) -> bool {
    matches!(
        word,
        "sign"
            | "verify"
            | "encrypt"
            | "decrypt"
            | "wrap-key"
            | "unwrap-key"
            | "mac-generate"
            | "mac-verify"
    )
}

/// Whether the way to the target of this word has no Revoke.
pub(crate) fn is_never_revoked(target: &str) -> bool {
    matches!(target, "created" | "active" | "discarded")
}

/// The index of the first element that names no usage.
pub(crate) fn no_usage(usages: &Array) -> Option<usize> {
    for (index, value) in usages.as_slice().iter().enumerate() {
        if !value.as_str().is_some_and(is_usage) {
            return Some(index);
        }
    }
    None
}

/// The index of the first word that stands in the array before.
pub(crate) fn twice(usages: &Array) -> Option<usize> {
    let usages = usages.as_slice();
    for (index, value) in usages.iter().enumerate() {
        let word = value.as_str()?;
        let earlier = usages.iter().take(index);
        if earlier.filter_map(Value::as_str).any(|other| other == word) {
            return Some(index);
        }
    }
    None
}
