//! Whom a reply is about.
ghost use Rattle.std.specs.Prelude.{◌≡◌, [], ◌∷◌, nat_le, false, option_map};
ghost use Rattle.std.specs.Option.{option_map_or};
ghost use Rattle.kmip_plan.specs.Chains.{step_place};
ghost use Rattle.kmip_plan.specs.Plans.{IsLawful};
ghost use Rattle.kmip_plan.specs.TargetWords.{is_text};
ghost use Rattle.kmip_client.specs.Hearing.{is_look, operation_step, is_asked_of, place_named, subject_at, subject_in, subject_of};
ghost use Rattle.kmip_client.specs.Private.{is_named_at};

use kmip_batch_items::Operation;
use kmip_objects::Step;
use kmip_plan::laws::the_laws_of_plans_hold;
use kmip_plan::{Key, step_place};
use kmip_ttlv::Bytes;

/// The key and the operation that an id names.
#[derive(Clone, Copy)]
pub(crate) struct Subject {
    /// The place of the key, from 0.
    pub key: usize,
    pub operation: u32,
}

/// Whom an id names: an operation that is asked about a key in one byte, and the key's name. The
/// likely place is looked at first.
pub(crate) fn subject_of(keys: &[Key], likely: usize, id: &Option<Bytes>) -> Option<Subject>
    requires { IsLawful keys.now }
    ensures { result ≡ subject_of keys.now id.now }
{
    let Some(id) = id else {
        return None;
    };
    subject_in(keys, likely, id.as_slice())
}

fn subject_in(keys: &[Key], likely: usize, id: &[u8]) -> Option<Subject>
    requires { IsLawful keys.now }
    ensures { result ≡ subject_in keys.now id.now }
{
    let (operation, name) = id.split_first()?;
    let place = place_named(keys, likely, name)?;
    subject_at(keys, u32::from(*operation), place)
}

fn subject_at(keys: &[Key], operation: u32, place: usize) -> Option<Subject>
    ensures { result ≡ subject_at keys.now operation place }
{
    match keys.get(place) {
        Some(key) if is_asked_of(key, operation) => Some(Subject {
            key: place,
            operation,
        }),
        _ => None,
    }
}

/// Whether the operation of a number is asked about the key: a look, or a step of its chain.
fn is_asked_of(key: &Key, number: u32) -> bool
    ensures { result ≡ is_asked_of key.now number }
{
    match Operation::with_number(number) {
        Some(operation) => is_look(operation) || is_step_of(key, operation),
        None => false,
    }
}

/// Whether the operation is a look.
fn is_look(operation: Operation) -> bool
    ensures { result ≡ is_look operation }
{
    match operation {
        Operation::Locate | Operation::GetAttributes => true,
        Operation::Create | Operation::Activate | Operation::Revoke | Operation::Destroy => false,
    }
}

/// Whether the operation is a step of the key's chain.
fn is_step_of(key: &Key, operation: Operation) -> bool
    ensures { result ≡ option_map_or
        (λ step. nat_le 1 (step_place key.now.target step)) (operation_step operation) false }
{
    match operation_step(operation) {
        Some(step) => step_place(key, step) >= 1,
        None => false,
    }
}

/// The step that an operation is.
fn operation_step(operation: Operation) -> Option<Step>
    ensures { result ≡ operation_step operation }
{
    match operation {
        Operation::Create => Some(Step::Create),
        Operation::Activate => Some(Step::Activate),
        Operation::Revoke => Some(Step::Revoke),
        Operation::Destroy => Some(Step::Destroy),
        Operation::Locate | Operation::GetAttributes => None,
    }
}

/// The place of the key with the name. Names are distinct, so where the key at the likely
/// place has the name, no other has it.
fn place_named(keys: &[Key], likely: usize, name: &[u8]) -> Option<usize>
    requires { IsLawful keys.now }
    ensures { result ≡ place_named name.now keys.now }
{
    the_laws_of_plans_hold(); // proof
    if is_named_at(keys, likely, name) {
        return Some(likely);
    }
    keys.iter().position(|key| is_named(key, name))
}

/// Whether the key at a place has the name.
fn is_named_at(keys: &[Key], place: usize, name: &[u8]) -> bool
    ensures { result ≡ is_named_at name.now keys.now place }
{
    match keys.get(place) {
        Some(key) => is_named(key, name),
        None => false,
    }
}

fn is_named(key: &Key, name: &[u8]) -> bool
    ensures { result ≡ is_text name.now key.now.attrs.name }
{
    name == key.attrs.name.as_str().as_bytes()
}
