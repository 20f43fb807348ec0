//! A plan from its text.
ghost use Rattle.std.specs.Prelude.{◌≡◌, [], List, Some, Ok, IfOk, option_map};
ghost use Rattle.toml.specs.Data.{Members, get_member};
ghost use Rattle.toml.specs.Parse.{parse_document};
ghost use Rattle.toml.specs.View.{view, array_view, table_view};
ghost use Rattle.kmip_plan.specs.Faults.{field_word};
ghost use Rattle.kmip_plan.specs.declared.key.Key.{Key};
ghost use Rattle.kmip_plan.specs.Plans.{IsPlan};
ghost use Rattle.kmip_plan.specs.Reading.{need, none_other, all_there, suite_of, key_in, keys_in, plan_in, plan_read, GivesPlan};
ghost use Rattle.kmip_plan.specs.Tables.{fields_of};

use crate::Key;
use crate::counts::count;
use crate::field::Field;
use crate::field_reading::{algorithm_of, length_of, name_of, reason_of, target_of, usage_of};
use crate::named_keys::NamedKeys;
use crate::plan::Plan;
use crate::plan_fault::PlanFault;
use crate::tables::{array_at, other_key_field, other_top_field, value_at};
use kmip_objects::KeyAttrs;
use kmip_ttlv::Text;
use std::alloc::Global;
use toml::value::Array;
use toml::{Table, Value};

/// The most keys that a plan may have (own).
const KEYS_MAX: usize = 1000;

/// The plan that a text is: TOML with an array of tables `key` and nothing else.
///
/// # Errors
/// The first fault in the order of the checks, with the place of the key; want of memory otherwise.
pub fn read_plan(alloc: Global, text: &str) -> Result<Plan, PlanFault>
    // What is read is a plan of the table that `toml` parses the text as.
    ensures found { IfOk result (λ plan.
        (ms : Members) × (parse_document text.now ≡ Some ms) × IsPlan ms plan) }
    // The keys of a text whose table is a plan of them are read, unless memory runs out.
    ensures only { (ms : Members) (keys : List Key)
        → parse_document text.now ≡ Some ms → IsPlan ms keys
        → GivesPlan (λ plan. plan) result (Ok keys) }
    // All of this as one function of the text: the keys, or the first fault, unless memory runs out.
    ensures exact { GivesPlan (λ plan. plan) result (plan_read text.now) }
{
    whole_plan(alloc, text)
}

/// The same, by the order of the checks.
fn whole_plan(alloc: Global, text: &str) -> Result<Plan, PlanFault>
    ensures { GivesPlan (λ plan. plan) result (plan_read text.now) }
{
    let keys = plan_of(alloc, text)?;
    Ok(Plan::new(keys))
}

/// The keys of a text.
#[tactic(auto, unfolding(crate::specs::Reading::plan_read))]
fn plan_of(alloc: Global, text: &str) -> Result<Vec<Key>, PlanFault>
    ensures { GivesPlan (λ keys. keys.items) result (plan_read text.now) }
{
    match toml::table_from_str(alloc, text) {
        Ok(table) => {
            let keys = keys_of(alloc, &table)?;
            Ok(keys)
        }
        Err(fault) if fault.is_memory() => Err(PlanFault::NoMemory),
        Err(_) => Err(PlanFault::Toml),
    }
}

/// The keys of a table, in their order.
#[tactic(auto, unfolding(crate::specs::Reading::plan_in))]
fn keys_of(alloc: Global, table: &Table) -> Result<Vec<Key>, PlanFault>
    ensures { GivesPlan (λ keys. keys.items) result (plan_in (table_view table.now)) }
{
    check_other(alloc, other_top_field(table), 0)?;
    let Some(array) = array_at(table, "key") else {
        return Err(PlanFault::NoKeys);
    };
    let count = count(array);
    if count == 0 {
        return Err(PlanFault::NoKeys);
    }
    if count > KEYS_MAX {
        return Err(PlanFault::TooMany);
    }
    let keys = keys_in(alloc, array)?;
    Ok(keys)
}

/// The keys of an array.
fn keys_in(alloc: Global, array: &Array) -> Result<Vec<Key>, PlanFault>
    ensures { GivesPlan (λ keys. keys.items) result (keys_in [] (array_view array.now)) }
{
    let mut keys = NamedKeys::new(alloc);
    for value in array {
        let key = key_of(alloc, &keys, value)?;
        keys = keys.with(alloc, key)?;
    }
    Ok(keys.into_keys())
}

/// The key of an element; one that is no table is read as an empty table.
#[tactic(auto, unfolding(crate::specs::Reading::key_in, crate::specs::Reading::all_there))]
fn key_of(alloc: Global, keys: &NamedKeys, value: &Value) -> Result<Key, PlanFault>
    ensures { GivesPlan (λ key. key) result (key_in keys.now (fields_of (view value.now))) }
{
    match value {
        Value::Table(table) => key_in(alloc, keys, table),
        _ => Err(PlanFault::Missing(Field::Name, keys.len() + 1)),
    }
}

/// The key of a table, after the keys before it.
#[tactic(auto, unfolding(crate::specs::Reading::key_in))]
fn key_in(alloc: Global, keys: &NamedKeys, table: &Table) -> Result<Key, PlanFault>
    ensures { GivesPlan (λ key. key) result (key_in keys.now (table_view table.now)) }
{
    let place = keys.len() + 1;
    check_fields(table, place)?;
    check_other(alloc, other_key_field(table), place)?;
    let name = name_of(table).ok_or(PlanFault::BadName(place))?;
    let (algorithm, length) = suite_of(table, place)?;
    let usage = usage_of(table).ok_or(PlanFault::BadUsage(place))?;
    let target = target_of(table).ok_or(PlanFault::BadTarget(place))?;
    let reason = reason_of(target, table).ok_or(PlanFault::BadReason(place))?;
    if keys.has_name(name) {
        return Err(PlanFault::SameName(place));
    }
    let attrs = KeyAttrs {
        name: Text::copied(alloc, name)?,
        algorithm,
        length,
        usage,
    };
    Ok(Key {
        attrs,
        target,
        reason,
    })
}

/// The algorithm, and how many bits its key has.
#[tactic(auto, unfolding(crate::specs::Reading::suite_of))]
fn suite_of(table: &Table, place: usize) -> Result<(u32, i32), PlanFault>
    ensures { GivesPlan (λ suite. suite) result (suite_of place (table_view table.now)) }
{
    let algorithm = algorithm_of(table).ok_or(PlanFault::BadLength(place))?;
    let length = length_of(algorithm, table).ok_or(PlanFault::BadLength(place))?;
    Ok((algorithm, length))
}

/// Each field that a key must have is there.
#[tactic(auto, unfolding(crate::specs::Reading::all_there))]
fn check_fields(table: &Table, place: usize) -> Result<(), PlanFault>
    ensures { GivesPlan (λ u. u) result (all_there place (table_view table.now)) }
{
    require(table, Field::Name, place)?;
    require(table, Field::Algorithm, place)?;
    require(table, Field::Length, place)?;
    require(table, Field::Usage, place)?;
    require(table, Field::Target, place)?;
    Ok(())
}

/// The field is there.
fn require<'a>(table: &'a Table, field: Field, place: usize) -> Result<&'a Value, PlanFault>
    ensures { GivesPlan (λ value. view value.now) result
        (need (PlanFault.Missing field place)
        (get_member (field_word field) (table_view table.now))) }
{
    match value_at(table, field.word()) {
        Some(value) => Ok(value),
        None => Err(PlanFault::Missing(field, place)),
    }
}

/// There is no other field.
fn check_other(alloc: Global, other: Option<&str>, place: usize) -> Result<(), PlanFault>
    ensures { GivesPlan (λ u. u) result
        (none_other place (option_map (λ word. word.now) other.entry)) }
{
    match other {
        Some(word) => {
            let word = Text::copied(alloc, word)?;
            Err(PlanFault::Unknown(word, place))
        }
        None => Ok(()),
    }
}
