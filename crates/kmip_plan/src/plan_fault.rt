//! Why a text is no plan.
ghost use Rattle.std.specs.Prelude.{◌≡◌, None, option_map};
ghost use Rattle.kmip_plan.specs.Faults.{plan_fault_number, plan_fault_name, plan_fault_place, plan_fault_field};
ghost use Rattle.kmip_plan.specs.declared.plan_fault.PlanFault.TheVariants as faults;

use crate::field::Field;
use kmip_ttlv::Text;
use std::alloc::{AllocError, AllocFailed};
use thiserror::Error;

/// The first thing that is wrong with a plan. A number is the place of the key, from 1; an unknown
/// field beside the keys is at place 0. It is displayed by its name, the field that it is about, and
/// the place of the key: `Missing usage at key 2`.
#[derive(Debug, Drop, Error)]
#[error("{name} at key {0}", name = self.name())]
pub enum PlanFault {
    #[error("{}", self.name())]
    Toml,
    /// There is no array of keys, or it is empty.
    #[error("{}", self.name())]
    NoKeys,
    /// More than 1,000 keys.
    #[error("{}", self.name())]
    TooMany,
    #[error("{} {} at key {}", self.name(), .0.word(), .1)]
    Missing(Field, usize),
    /// A field that plans do not have.
    #[error("{} {} at key {}", self.name(), .0.as_str(), .1)]
    Unknown(Text, usize),
    BadName(usize),
    /// The algorithm is none of the profile, or has no keys of this length.
    BadLength(usize),
    BadUsage(usize),
    BadTarget(usize),
    /// No reason of a Revoke, or a reason with a target that has no Revoke.
    BadReason(usize),
    /// A key before has the name.
    SameName(usize),
    #[error("{}", self.name())]
    NoMemory,
}

impl PlanFault {
    /// The number of the fault, 1 to 12.
    pub fn number(&self) -> u32
        ensures { result ≡ plan_fault_number self.now }
    {
        match self {
            PlanFault::Toml => 1,
            PlanFault::NoKeys => 2,
            PlanFault::TooMany => 3,
            PlanFault::Missing(..) => 4,
            PlanFault::Unknown(..) => 5,
            PlanFault::BadName(_) => 6,
            PlanFault::BadLength(_) => 7,
            PlanFault::BadUsage(_) => 8,
            PlanFault::BadTarget(_) => 9,
            PlanFault::BadReason(_) => 10,
            PlanFault::SameName(_) => 11,
            PlanFault::NoMemory => 12,
        }
    }

    /// The name of the fault, as it is printed.
    pub fn name(&self) -> &'static str
        ensures { result.now ≡ plan_fault_name self.now }
    {
        match self {
            PlanFault::Toml => "Toml",
            PlanFault::NoKeys => "NoKeys",
            PlanFault::TooMany => "TooMany",
            PlanFault::Missing(..) => "Missing",
            PlanFault::Unknown(..) => "Unknown",
            PlanFault::BadName(_) => "BadName",
            PlanFault::BadLength(_) => "BadLength",
            PlanFault::BadUsage(_) => "BadUsage",
            PlanFault::BadTarget(_) => "BadTarget",
            PlanFault::BadReason(_) => "BadReason",
            PlanFault::SameName(_) => "SameName",
            PlanFault::NoMemory => "NoMemory",
        }
    }

    /// The place from 1 of the key that is at fault, and 0 for a field beside the keys. A fault of
    /// the whole text has no place.
    pub fn place(&self) -> Option<usize>
        ensures { result ≡ plan_fault_place self.now }
    {
        match self {
            PlanFault::Missing(_, place)
            | PlanFault::Unknown(_, place)
            | PlanFault::BadName(place)
            | PlanFault::BadLength(place)
            | PlanFault::BadUsage(place)
            | PlanFault::BadTarget(place)
            | PlanFault::BadReason(place)
            | PlanFault::SameName(place) => Some(*place),
            PlanFault::Toml | PlanFault::NoKeys | PlanFault::TooMany | PlanFault::NoMemory => None,
        }
    }

    /// The name of the field that is missing or unknown; none for any other fault.
    pub fn field(&self) -> Option<&str>
        ensures { option_map (λ word. word.now) result ≡ plan_fault_field self.now }
    {
        match self {
            PlanFault::Missing(field, _) => Some(field.word()),
            PlanFault::Unknown(word, _) => Some(word.as_str()),
            _ => None,
        }
    }
}

impl From<AllocError> for PlanFault {
    ghost from_gives = { λ _ e. e ≡ faults.NoMemory };

    fn from(_e: AllocError) -> PlanFault {
        PlanFault::NoMemory
    }
}

impl<T: Drop> From<AllocFailed<T>> for PlanFault {
    ghost from_gives = { λ _ e. e ≡ faults.NoMemory };

    fn from(_e: AllocFailed<T>) -> PlanFault {
        PlanFault::NoMemory
    }
}
