//! What is in a table of TOML.
ghost use Rattle.std.specs.Prelude.{◌≡◌, not, option_map, string_bytes};
ghost use Rattle.std.specs.List.{find};
ghost use Rattle.std.specs.Map.{keys_of};
ghost use Rattle.std.specs.Option.{option_copied};
ghost use Rattle.toml.specs.Data.{get_member};
ghost use Rattle.toml.specs.View.{view, array_view, table_view};
ghost use Rattle.kmip_plan.specs.Tables.{text_at, integer_at, array_at, is_top_field, is_key_field, first_other};

use toml::value::Array;
use toml::{Table, Value};

/// The value at a key.
pub(crate) fn value_at<'a>(table: &'a Table, key: &str) -> Option<&'a Value>
    ensures { option_map (λ value. view value.now) result
        ≡ get_member key.now (table_view table.now) }
{
    table.get(key)
}

/// The text at a key; a value of another type is none.
pub(crate) fn text_at<'a>(table: &'a Table, key: &str) -> Option<&'a str>
    ensures { option_map (λ text. text.now) result ≡ text_at key.now (table_view table.now) }
{
    match value_at(table, key) {
        Some(value) => value.as_str(),
        None => None,
    }
}

/// The integer at a key; a value of another type is none.
pub(crate) fn integer_at(table: &Table, key: &str) -> Option<i64>
    ensures { result ≡ integer_at key.now (table_view table.now) }
{
    match value_at(table, key) {
        Some(value) => value.as_integer(),
        None => None,
    }
}

/// The array at a key; a value of another type is none.
pub(crate) fn array_at<'a>(table: &'a Table, key: &str) -> Option<&'a Array>
    ensures { option_map (λ array. array_view array.now) result
        ≡ array_at key.now (table_view table.now) }
{
    match value_at(table, key) {
        Some(value) => value.as_array(),
        None => None,
    }
}

/// The first key beside the array of keys.
pub(crate) fn other_top_field(table: &Table) -> Option<&str>
    ensures { option_map (λ word. word.now) result
        ≡ first_other is_top_field (table_view table.now) }
{
    match other_top(table) {
        Some(word) => Some(word.as_str()),
        None => None,
    }
}

/// The first key of the table that no key of a plan has.
pub(crate) fn other_key_field(table: &Table) -> Option<&str>
    ensures { option_map (λ word. word.now) result
        ≡ first_other is_key_field (table_view table.now) }
{
    match other_key(table) {
        Some(word) => Some(word.as_str()),
        None => None,
    }
}

fn other_top(table: &Table) -> Option<&String>
    ensures { option_copied result
        ≡ find (λ word. not (is_top_field (string_bytes word))) (keys_of table.now.entries) }
{
    table.keys().find(|word| !is_top_field(word.as_str()))
}

fn other_key(table: &Table) -> Option<&String>
    ensures { option_copied result
        ≡ find (λ word. not (is_key_field (string_bytes word))) (keys_of table.now.entries) }
{
    table.keys().find(|word| !is_key_field(word.as_str()))
}

fn is_top_field(word: &str) -> bool
    ensures { result ≡ is_top_field word.now }
{
    word == "key"
}

fn is_key_field(word: &str) -> bool
    ensures { result ≡ is_key_field word.now }
{
    word == "name"
        || word == "algorithm"
        || word == "length"
        || word == "usage"
        || word == "target"
        || word == "reason"
}
