//! The values that the attributes of an object may have.
ghost use Rattle.std.specs.Prelude.{◌≡◌};
ghost use Rattle.std.specs.List.{list_all};
ghost use Rattle.kmip_objects.specs.Ranges.{
  is_name_byte,
  is_name,
  is_identifier,
  is_algorithm,
  is_aes_length,
  is_length,
  is_usage,
  is_revocation_code,
  is_compromise,
  attrs_fit,
};

use crate::key_attrs::KeyAttrs;
use crate::standard::{
    ALGORITHM_AES, ALGORITHM_HMAC_SHA256, NAME_MAX, REVOCATION_CA_COMPROMISE,
    REVOCATION_KEY_COMPROMISE, REVOCATION_PRIVILEGE_WITHDRAWN, REVOCATION_UNSPECIFIED, USAGE_MAX,
};

/// Whether a key may be made with these attributes: each is in its range. It takes no memory.
pub fn attrs_fit(attrs: &KeyAttrs) -> bool
    ensures { result ≡ attrs_fit attrs.now }
{
    is_name(attrs.name.as_str())
        && is_algorithm(attrs.algorithm)
        && is_length(attrs.algorithm, attrs.length)
        && is_usage(attrs.usage)
}

/// Whether the text may name a key in a request: 1 to 64 bytes, each 21 to 7E hexadecimal.
pub fn is_name(name: &str) -> bool
    ensures { result ≡ is_name name.now }
{
    let bytes = name.as_bytes();
    1 <= bytes.len() && bytes.len() <= NAME_MAX && are_name_bytes(bytes)
}

fn are_name_bytes(bytes: &[u8]) -> bool
    ensures { result ≡ list_all is_name_byte bytes.now }
{
    bytes.iter().all(|b| 0x21 <= *b && *b <= 0x7E)
}

/// Whether the text may be a Unique Identifier: 1 to 64 bytes.
pub fn is_identifier(identifier: &str) -> bool
    ensures { result ≡ is_identifier identifier.now }
{
    1 <= identifier.len() && identifier.len() <= NAME_MAX
}

/// Whether the number is an algorithm of the profile: AES or HMAC-SHA256.
pub fn is_algorithm(algorithm: u32) -> bool
    ensures { result ≡ is_algorithm algorithm }
{
    algorithm == ALGORITHM_AES || algorithm == ALGORITHM_HMAC_SHA256
}

/// Whether a key of the algorithm may have this many bits: 128, 192 or 256 of AES, 256 of HMAC-SHA256,
/// and none of another algorithm.
pub fn is_length(algorithm: u32, length: i32) -> bool
    ensures { result ≡ is_length algorithm length }
{
    if algorithm == ALGORITHM_AES {
        is_aes_length(length)
    } else {
        algorithm == ALGORITHM_HMAC_SHA256 && length == 256
    }
}

fn is_aes_length(length: i32) -> bool
    ensures { result ≡ is_aes_length length }
{
    length == 128 || length == 192 || length == 256
}

/// Whether a new key may have this Cryptographic Usage Mask: 1 to 1FF hexadecimal.
pub fn is_usage(usage: i32) -> bool
    ensures { result ≡ is_usage usage }
{
    usage > 0 && usage <= USAGE_MAX
}

/// Whether the number is a Revocation Reason Code: 1 to 7.
pub fn is_revocation_code(code: u32) -> bool
    ensures { result ≡ is_revocation_code code }
{
    REVOCATION_UNSPECIFIED <= code && code <= REVOCATION_PRIVILEGE_WITHDRAWN
}

/// Whether a Revocation Reason Code says that others may know the key: the compromise of the key,
/// or of its authority.
///
/// Source: KMIP 2.1, Enumerations, Revocation Reason Code.
pub fn is_compromise(code: u32) -> bool
    ensures { result ≡ is_compromise code }
{
    code == REVOCATION_KEY_COMPROMISE || code == REVOCATION_CA_COMPROMISE
}
