//! Which attributes of a new object are told.
ghost use Rattle.std.specs.Prelude.{◌≡◌, ◌==◌, nat_eq, option_map};
ghost use Rattle.std.specs.Cmp.Lexicographic.{pointwise};
ghost use Rattle.std.specs.Ordering.{int_eq};
ghost use Rattle.kmip_probe.specs.Telling.{attributes_told, cryptographic_flaw, first_flaw, flaw_of};

use crate::attribute::Attribute;
use crate::finding::Finding;
use crate::flaw::Flaw;
use crate::inquiry::{KEY_BITS, KEY_USAGE};
use kmip_batch_items::Outcome;
use kmip_objects::standard::{ALGORITHM_AES, OBJECT_TYPE_SYMMETRIC_KEY};
use kmip_objects::{Attrs, KeyState};
use kmip_ttlv::Text;

/// What an answer to Get Attributes says of a new object with the name.
pub(crate) fn attributes_told(name: &str, outcome: Option<&Outcome>) -> Finding
    ensures { result ≡ attributes_told name.now (option_map (λ o. o.now) outcome.entry) }
{
    match outcome {
        Some(Outcome::Attributes(_, told)) => match first_flaw(name, told) {
            Some(flaw) => Finding::Broken(flaw),
            None => Finding::Kept,
        },
        Some(Outcome::Failed(_)) => Finding::Broken(Flaw::Refused),
        Some(
            Outcome::Created(_)
            | Outcome::Located(_)
            | Outcome::Activated(_)
            | Outcome::Revoked(_)
            | Outcome::Destroyed(_),
        )
        | None => Finding::Untold,
    }
}

/// The first flaw of the attributes of a new object with the name.
fn first_flaw(name: &str, told: &Attrs) -> Option<Flaw>
    ensures { result ≡ first_flaw name.now told.now }
{
    let kind = number_flaw(
        Attribute::ObjectType,
        told.object_type,
        OBJECT_TYPE_SYMMETRIC_KEY,
    );
    let state = number_flaw(Attribute::State, told.state, KeyState::PreActive.number());
    kind.or(name_flaw(name, &told.name))
        .or(cryptographic_flaw(told))
        .or(state)
}

/// The first flaw of the algorithm, the length and the usage.
fn cryptographic_flaw(told: &Attrs) -> Option<Flaw>
    ensures { result ≡ cryptographic_flaw told.now }
{
    number_flaw(
        Attribute::CryptographicAlgorithm,
        told.algorithm,
        ALGORITHM_AES,
    )
    .or(integer_flaw(Attribute::CryptographicLength, told.length, KEY_BITS))
    .or(integer_flaw(Attribute::CryptographicUsageMask, told.usage, KEY_USAGE))
}

/// The flaw of the name.
fn name_flaw(name: &str, told: &Option<Text>) -> Option<Flaw>
    ensures { result ≡ flaw_of Attribute.Name
        (option_map (λ n. pointwise nat_eq n name.now) told.now) }
{
    match told {
        Some(told) => flaw_of(Attribute::Name, Some(told.as_str() == name)),
        None => flaw_of(Attribute::Name, None),
    }
}

/// The flaw of an attribute that is a number.
fn number_flaw(attribute: Attribute, told: Option<u32>, own: u32) -> Option<Flaw>
    ensures { result ≡ flaw_of attribute (option_map (λ n. n == own) told) }
{
    match told {
        Some(told) => flaw_of(attribute, Some(told == own)),
        None => flaw_of(attribute, None),
    }
}

/// The flaw of an attribute that is a number with a sign.
fn integer_flaw(attribute: Attribute, told: Option<i32>, own: i32) -> Option<Flaw>
    ensures { result ≡ flaw_of attribute (option_map (λ n. int_eq n own) told) }
{
    match told {
        Some(told) => flaw_of(attribute, Some(told == own)),
        None => flaw_of(attribute, None),
    }
}

/// The flaw of an attribute that is missing, or is another than it was made with.
fn flaw_of(attribute: Attribute, is_own: Option<bool>) -> Option<Flaw>
    ensures { result ≡ flaw_of attribute is_own }
{
    match is_own {
        None => Some(Flaw::Missing(attribute)),
        Some(false) => Some(Flaw::Different(attribute)),
        Some(true) => None,
    }
}
