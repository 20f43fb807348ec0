//! The attributes of an object.
ghost use Rattle.std.specs.Prelude.{◌≡◌, ◌==◌, ℕ, List, nat_eq, true, IfOk};
ghost use Rattle.std.specs.Cmp.Lexicographic.{pointwise};
ghost use Rattle.std.specs.Option.{option_map_or};
ghost use Rattle.std.specs.Ordering.{int_eq};
ghost use Rattle.kmip_objects.specs.Attributes.{by_name, has_given, attributes_of};

use crate::key_attrs::KeyAttrs;
use crate::key_state::KeyState;
use crate::standard::OBJECT_TYPE_SYMMETRIC_KEY;
use kmip_ttlv::Text;
use std::alloc::{AllocError, Global};

/// The attributes of the profile, each where it is given.
#[derive(Drop)]
pub struct Attrs {
    /// Object Type, by its number.
    pub object_type: Option<u32>,
    /// The Name Value of Name.
    pub name: Option<Text>,
    /// Cryptographic Algorithm, by its number.
    pub algorithm: Option<u32>,
    /// Cryptographic Length in bits.
    pub length: Option<i32>,
    /// Cryptographic Usage Mask.
    pub usage: Option<i32>,
    /// State, by its number.
    pub state: Option<u32>,
}

impl Attrs {
    /// The attributes that give this name and nothing else. It takes no memory.
    pub fn by_name(name: Text) -> Self
        ensures { result ≡ by_name name }
    {
        Attrs {
            object_type: None,
            name: Some(name),
            algorithm: None,
            length: None,
            usage: None,
            state: None,
        }
    }
}

/// Whether an object that was made with these attributes, in this state, has every attribute that
/// is given. The usage mask is compared by equality, which is a choice of our own. It takes no memory.
///
/// Source: KMIP 2.1, Operations, Locate.
pub fn has_given(given: &Attrs, attrs: &KeyAttrs, state: KeyState) -> bool
    ensures { result ≡ has_given given.now attrs.now state }
{
    is_named(given, attrs)
        && is_given_number(given.object_type, OBJECT_TYPE_SYMMETRIC_KEY)
        && is_given_number(given.algorithm, attrs.algorithm)
        && is_given_integer(given.length, attrs.length)
        && is_given_integer(given.usage, attrs.usage)
        && is_given_number(given.state, state.number())
}

/// Whether the name is the one that is given.
fn is_named(given: &Attrs, attrs: &KeyAttrs) -> bool
    ensures { result ≡ option_map_or
        (λ name. pointwise nat_eq name attrs.now.name) given.now.name true }
{
    match &given.name {
        Some(name) => name.as_str() == attrs.name.as_str(),
        None => true,
    }
}

fn is_given_number(given: Option<u32>, own: u32) -> bool
    ensures { result ≡ option_map_or (λ n. n == own) given true }
{
    match given {
        Some(given) => given == own,
        None => true,
    }
}

fn is_given_integer(given: Option<i32>, own: i32) -> bool
    ensures { result ≡ option_map_or (λ n. int_eq n own) given true }
{
    match given {
        Some(given) => given == own,
        None => true,
    }
}

/// What Get Attributes tells of an object that was made with these attributes, in this state: every
/// attribute of the profile, whatever the object's identifier.
///
/// # Errors
/// Where there is no memory for it.
///
/// Source: KMIP 2.1, Operations, Get Attributes.
pub fn attributes_of(alloc: Global, attrs: &KeyAttrs, state: KeyState) -> Result<Attrs, AllocError>
    ensures { IfOk result (λ told. (uid : List ℕ)
        → told ≡ attributes_of (record { uid = uid; attrs = attrs.now; state = state })) }
{
    let name = Text::copied(alloc, attrs.name.as_str())?;
    Ok(Attrs {
        object_type: Some(OBJECT_TYPE_SYMMETRIC_KEY),
        name: Some(name),
        algorithm: Some(attrs.algorithm),
        length: Some(attrs.length),
        usage: Some(attrs.usage),
        state: Some(state.number()),
    })
}
