//! The words that stand for the numbers of the standard.
ghost use Rattle.std.specs.Prelude.{◌≡◌, option_map, map};
ghost use Rattle.std.specs.List.{list_any};
ghost use Rattle.kmip_plan.specs.TargetWords.{is_text};
ghost use Rattle.kmip_plan.specs.Words.{algorithm_word, algorithm_of_word, reason_of_word, is_usage_word, usages};

use kmip_objects::standard::{
    ALGORITHM_AES, ALGORITHM_HMAC_SHA256, REVOCATION_AFFILIATION_CHANGED,
    REVOCATION_CESSATION_OF_OPERATION, REVOCATION_PRIVILEGE_WITHDRAWN, REVOCATION_SUPERSEDED,
    REVOCATION_UNSPECIFIED,
};

/// The word of a plan for a Cryptographic Algorithm; none for one outside the profile. Takes no
/// memory.
pub fn algorithm_word(algorithm: u32) -> Option<&'static str>
    ensures { option_map (λ word. word.now) result ≡ algorithm_word algorithm }
{
    match algorithm {
        ALGORITHM_AES => Some("AES"),
        ALGORITHM_HMAC_SHA256 => Some("HMAC-SHA256"),
        _ => None,
    }
}

/// The Cryptographic Algorithm that a word of a plan names.
pub(crate) fn algorithm_of_word(word: &str) -> Option<u32>
    ensures { result ≡ algorithm_of_word word.now }
{
    match word {
        "AES" => Some(ALGORITHM_AES),
        "HMAC-SHA256" => Some(ALGORITHM_HMAC_SHA256),
        _ => None,
    }
}

/// The Revocation Reason Code that a word of a plan names; a compromise has no word.
pub(crate) fn reason_of_word(word: &str) -> Option<u32>
    ensures { result ≡ reason_of_word word.now }
{
    match word {
        "unspecified" => Some(REVOCATION_UNSPECIFIED),
        "affiliation-changed" => Some(REVOCATION_AFFILIATION_CHANGED),
        "superseded" => Some(REVOCATION_SUPERSEDED),
        "cessation-of-operation" => Some(REVOCATION_CESSATION_OF_OPERATION),
        "privilege-withdrawn" => Some(REVOCATION_PRIVILEGE_WITHDRAWN),
        _ => None,
    }
}

/// The words of a plan for the usages, each with its bit of the Cryptographic Usage Mask.
///
/// Source: KMIP 2.1, Enumerations and Masks, Cryptographic Usage Mask. The words are own.
const USAGES: [(&str, u16); 8] = [
    ("sign", 1),
    ("verify", 2),
    ("encrypt", 4),
    ("decrypt", 8),
    ("wrap-key", 16),
    ("unwrap-key", 32),
    ("mac-generate", 128),
    ("mac-verify", 256),
];

/// The words for the usages, each with its bit of the mask.
pub(crate) fn usages() -> &'static [(&'static str, u16)]
    ensures { map (λ usage. (usage.0.now, usage.1)) result.now ≡ usages }
{
    &USAGES
}

/// Whether the word names a usage.
pub(crate) fn is_usage_word(word: &str) -> bool
    ensures { result ≡ is_usage_word word.now }
{
    is_first_of(word, usages())
}

/// Whether the word is the first part of some of these.
fn is_first_of(word: &str, usages: &[(&str, u16)]) -> bool
    ensures { result ≡ list_any (λ usage. is_text word.now usage.0.now) usages.now }
{
    usages.iter().any(|usage| word == usage.0)
}
