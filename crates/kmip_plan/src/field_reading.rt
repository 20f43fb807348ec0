//! The fields of a key, each where it has a lawful value.
ghost use Rattle.std.specs.Prelude.{◌≡◌, option_map, option_and_then};
ghost use Rattle.kmip_objects.specs.Ranges.{is_length};
ghost use Rattle.toml.specs.Data.{as_str};
ghost use Rattle.toml.specs.View.{view, array_view, table_view};
ghost use Rattle.kmip_plan.specs.Fields.{if_so, name_of, algorithm_of, length_of, usage_in, usage_of, target_of, reason_of};
ghost use Rattle.kmip_plan.specs.Words.{reason_of_word};

use crate::Target;
use crate::counts::{are_once, are_usages, mask_of};
use crate::tables::{array_at, integer_at, text_at, value_at};
use crate::words::{algorithm_of_word, reason_of_word};
use kmip_objects::standard::REVOCATION_UNSPECIFIED;
use kmip_objects::{is_length, is_name};
use toml::value::Array;
use toml::{Table, Value};

/// The name, 1 to 64 bytes, each 21 to 7E hexadecimal.
pub(crate) fn name_of(table: &Table) -> Option<&str>
    ensures { option_map (λ name. name.now) result ≡ name_of (table_view table.now) }
{
    match text_at(table, "name") {
        Some(name) if is_name(name) => Some(name),
        _ => None,
    }
}

/// The Cryptographic Algorithm.
pub(crate) fn algorithm_of(table: &Table) -> Option<u32>
    ensures { result ≡ algorithm_of (table_view table.now) }
{
    match text_at(table, "algorithm") {
        Some(word) => algorithm_of_word(word),
        None => None,
    }
}

/// The length in bits, where the algorithm has keys of that length.
pub(crate) fn length_of(algorithm: u32, table: &Table) -> Option<i32>
    ensures { result ≡ length_of algorithm (table_view table.now) }
{
    match integer_at(table, "length") {
        Some(bits) => bits_of(algorithm, bits),
        None => None,
    }
}

/// The bits as a length, where the algorithm has keys of that length.
fn bits_of(algorithm: u32, bits: i64) -> Option<i32>
    ensures { result ≡ if_so (is_length algorithm) bits }
{
    match i32::try_from(bits) {
        Ok(length) if is_length(algorithm, length) => Some(length),
        _ => None,
    }
}

/// The Cryptographic Usage Mask.
pub(crate) fn usage_of(table: &Table) -> Option<i32>
    ensures { result ≡ usage_of (table_view table.now) }
{
    match array_at(table, "usage") {
        Some(array) => usage_in(array),
        None => None,
    }
}

/// The mask, where each element names a usage, no usage is named twice, and one is named.
fn usage_in(array: &Array) -> Option<i32>
    ensures { result ≡ usage_in (array_view array.now) }
{
    if !are_usages(array) || !are_once(array) {
        return None;
    }
    let mask = mask_of(array);
    if mask == 0 {
        None
    } else {
        Some(i32::from(mask))
    }
}

/// How far the key is to go.
pub(crate) fn target_of(table: &Table) -> Option<Target>
    ensures { result ≡ target_of (table_view table.now) }
{
    match text_at(table, "target") {
        Some(word) => Target::from_word(word),
        None => None,
    }
}

/// The Revocation Reason Code, 0 for a target without a Revoke.
pub(crate) fn reason_of(target: Target, table: &Table) -> Option<u32>
    ensures { result ≡ reason_of target (table_view table.now) }
{
    match (target.is_revoked(), value_at(table, "reason")) {
        (true, None) => Some(REVOCATION_UNSPECIFIED),
        (true, Some(value)) => reason_in(value),
        (false, None) => Some(0),
        (false, Some(_)) => None,
    }
}

/// The code of a reason that is given.
fn reason_in(value: &Value) -> Option<u32>
    ensures { result ≡ option_and_then reason_of_word (as_str (view value.now)) }
{
    match value.as_str() {
        Some(word) => reason_of_word(word),
        None => None,
    }
}
