//! Words in an array.
ghost use Rattle.std.specs.Prelude.{◌≡◌, ◌≤◌, false};
ghost use Rattle.std.specs.List.{list_all, sum_by};
ghost use Rattle.std.specs.Option.{option_map_or};
ghost use Rattle.toml.specs.Data.{as_str};
ghost use Rattle.toml.specs.View.{view, array_view};
ghost use Rattle.kmip_plan.specs.Fields.{is_once, are_once, bit_of, mask_of};
ghost use Rattle.kmip_plan.specs.Tables.{count, is_word, times, all_words};
ghost use Rattle.kmip_plan.specs.Words.{is_usage_word};

use crate::words::{is_usage_word, usages};
use toml::Value;
use toml::value::Array;

/// How many elements there are.
pub(crate) fn count(array: &Array) -> usize
    ensures { result ≡ count (array_view array.now) }
{
    array.as_slice().len()
}

/// How often the word is in the array.
fn times(array: &Array, word: &str) -> usize
    ensures { result ≡ times word.now (array_view array.now) }
{
    let mut count = 0;
    for value in array {
        if is_word(value, word) {
            count += 1;
        }
    }
    count
}

/// Whether each element names a usage.
pub(crate) fn are_usages(array: &Array) -> bool
    ensures { result ≡ all_words is_usage_word (array_view array.now) }
{
    all_usages(array.as_slice())
}

fn all_usages(values: &[Value]) -> bool
    ensures { result
        ≡ list_all (λ value. option_map_or is_usage_word
        (as_str (view value)) false) values.now }
{
    values.iter().all(|value| is_usage(value))
}

/// Whether no usage is there twice.
pub(crate) fn are_once(array: &Array) -> bool
    ensures { result ≡ are_once (array_view array.now) }
{
    all_once(array, usages())
}

fn all_once(array: &Array, usages: &[(&str, u16)]) -> bool
    ensures { result ≡ list_all (λ usage. is_once usage.0.now (array_view array.now)) usages.now }
{
    usages.iter().all(|usage| is_once(array, usage.0))
}

/// The sum of the numbers of the usages that are there.
pub(crate) fn mask_of(array: &Array) -> u16
    ensures mask { result ≡ mask_of (array_view array.now) }
    ensures small { result ≤ 511 }
{
    sum_of(array, usages())
}

/// The sum of the numbers of those of these usages that are there.
fn sum_of(array: &Array, usages: &[(&str, u16)]) -> u16
    requires { sum_by (λ usage. usage.1) usages.now ≤ 511 }
    ensures { result
        ≡ sum_by (λ usage. bit_of (array_view array.now) usage.0.now usage.1) usages.now }
{
    let mut mask = 0;
    for usage in usages {
        mask += bit_of(array, usage.0, usage.1);
    }
    mask
}

/// The number of a usage, where its word is there.
fn bit_of(array: &Array, word: &str, bit: u16) -> u16
    ensures bit { result ≡ bit_of (array_view array.now) word.now bit }
    ensures most { result ≤ bit }
{
    if times(array, word) == 0 { 0 } else { bit }
}

fn is_once(array: &Array, word: &str) -> bool
    ensures { result ≡ is_once word.now (array_view array.now) }
{
    times(array, word) <= 1
}

fn is_word(value: &Value, word: &str) -> bool
    ensures { result ≡ is_word word.now (view value.now) }
{
    match value.as_str() {
        Some(text) => text == word,
        None => false,
    }
}

fn is_usage(value: &Value) -> bool
    ensures { result ≡ option_map_or is_usage_word (as_str (view value.now)) false }
{
    match value.as_str() {
        Some(text) => is_usage_word(text),
        None => false,
    }
}
